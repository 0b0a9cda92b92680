//! A world of places: what one driver plays, and what stands for the worlds of which the laws
//! speak.
mod conditions;
mod effects;
mod items;
mod layout;
mod report;
mod rows;
mod sight;
mod start;
mod steps;
mod tables;

ghost use Rattle.std.specs.Prelude.{◌≡◌, ◌≢◌, ℕ, ◌+◌, ◌*◌, ◌^◌, ◌<◌, ◌≤◌, List, map, length, IfOk};
ghost use Rattle.std.specs.Prelude.{IfErr, Err};
ghost use Rattle.glb_rules.specs.World.{Setup, World as AbstractWorld};
ghost use Rattle.glb_rules.specs.Lawful.{sum_of_places};
ghost use Rattle.glb_core.specs.Counters.{all_counters};
ghost use Rattle.glb_rules.specs.Setups.{IsWithinLimits};
ghost use Rattle.glb_core.specs.Seen.{sight as sight_of, IsMadeFor};
ghost use Rattle.glb_rules.specs.Sight.{sight_at, state_at};
ghost use Rattle.glb_core.specs.Tables.{WorldView};
ghost use Rattle.glb_rules.specs.Events.{NamesBelow};
ghost use Rattle.glb_core.specs.Standing.{AllFit, KeepAllFit};
ghost use Rattle.glb_core.specs.Standing.{IsSound, Represents, SimulatesWholly, Fails, HasNoCase};
ghost use Rattle.glb_core.specs.Standing.{StartsAt, ListsFit};

use crate::{Event, Params, PlaceState, Seen, StepFault};
use glb_cube::Lines;
use glb_laws::{Bag, Monoid, NoMemory, Program};
use glb_stats::{Counters, Report};
use std::alloc::Global;
use std::marker::Model;
use tables::Tables;

/// A world of places, each with a bag. Of the items done it keeps their number and the combination
/// of their values.
#[derive(Drop)]
pub struct World<P: Program, B: Bag<P>> {
    tables: Tables<B, P::Value>,
    /// Where the report's counters will stand: memory for them is taken at the start.
    report: Vec<Counters>,
}

impl<P: Program, B: Bag<P>> Model for World<P, B> {
    ghost use Rattle.std.specs.Prelude.{◌≡◌, vec_len};
    ghost use Rattle.glb_core.specs.Tables.{WorldView, view_of};
    ghost use Rattle.glb_core.specs.Standing.{IsSound};

    ghost Value = { WorldView B P.Value };

    ghost view = { λ a. view_of a.tables };

    ghost invariant = { λ a. IsSound {I = P.Item} B.items (view_of a.tables)
        × (vec_len a.report ≡ a.tables.lines.places) };
}

impl<P: Program, B: Bag<P>> World<P, B> {
    /// The start of the bags, one for each place. It hands the bags back where there is no memory.
    pub fn new(
        alloc: Global,
        program: &P,
        params: &Params,
        bags: Vec<B>,
    ) -> Result<World<P, B>, (NoMemory, Vec<B>)>
        requires limits { IsWithinLimits params.now }
        requires bags { length bags.items ≡ params.now.places }
        ensures start { IfOk result
            (λ x. StartsAt B.items P.Value.unit params.now (map B.items bags.items) x) }
        ensures fits { IfOk result
            (λ x. (p : P) → ListsFit B.fits p bags.items → AllFit B.fits x p) }
        ensures returned { IfErr result (λ e. e.1.items ≡ bags.items) }
    {
        match start::make::<P, B>(alloc, program, params, &bags) {
            Ok((mut tables, report)) => {
                start::fill::<P, B>(&mut tables.place_rows, bags);
                Ok(World { tables, report })
            }
            Err(no_memory) => Err((no_memory, bags)),
        }
    }

    /// Does the event, where it has a case, and answers how many items it expanded.
    pub fn step(&mut self, program: &P, event: Event) -> Result<u64, StepFault>
        requires named { NamesBelow self.old.cube.places event }
        requires fits { AllFit B.fits self.old program.now }
        requires total { self.old.total ≤ 2 ^ 41 }
        ensures step { IfOk result
            (λ k. SimulatesWholly B.items (P.children program.now)
            (P.value program.now) P.Value.combine
            P.Value.unit self.old event k self.new) }
        ensures fault { IfErr result
            (λ f. Fails B.items (P.children program.now) (P.value program.now) P.Value.combine
            P.Value.unit self.old event self.new f) }
        ensures exact { HasNoCase {I = P.Item} B.items self.old event → result
            ≡ Err StepFault.NotEnabled }
        ensures fits { KeepAllFit B.fits self.old self.new }
        ensures graph { self.new.cube ≡ self.old.cube }
        ensures params { self.new.params ≡ self.old.params }
    {
        steps::step::<P, B>(&mut self.tables, program, event)
    }

    /// The place's own state.
    pub fn state(&self, place: u32) -> PlaceState
        requires { place < self.now.cube.places }
        ensures { (s : Setup) (w : AbstractWorld P.Item) → Represents B.items s self.now w →
            result ≡ state_at self.now.params.seed s w place }
    {
        sight::state::<P, B>(&self.tables, place)
    }

    /// Tells all that the place can see.
    pub fn look_round(&self, place: u32, seen: &mut Seen)
        requires place { place < self.now.cube.places }
        requires made { IsMadeFor self.now.cube place (sight_of seen.old) }
        ensures seen { (s : Setup) (w : AbstractWorld P.Item) → Represents B.items s self.now w
            → sight_of seen.new ≡ sight_at s w place }
        ensures made { IsMadeFor self.now.cube place (sight_of seen.new) }
    {
        sight::look_round(&self.tables, place, seen)
    }

    /// The lifeline graph of the places.
    pub fn lines(&self) -> &Lines
        ensures { result.now ≡ self.now.cube }
    {
        &self.tables.lines
    }

    /// The number of credits and of parts that travel: the run is finished where it is 0.
    pub fn live(&self) -> u64
        ensures live { result ≡ self.now.live }
        ensures sound { IsSound {I = P.Item} B.items self.now }
        ensures world { (s : Setup) (w : AbstractWorld P.Item) → Represents B.items s self.now w
            → result
            ≡ w.live }
    {
        self.tables.live
    }

    /// The greatest code of a Halt, or 0.
    pub fn stop(&self) -> u64
        ensures stop { result ≡ self.now.stop }
        ensures world { (s : Setup) (w : AbstractWorld P.Item) → Represents B.items s self.now w
            → result
            ≡ w.stop }
    {
        self.tables.stop
    }

    /// How many items were expanded.
    pub fn total(&self) -> u64
        ensures total { result ≡ self.now.total }
        ensures world { (s : Setup) (w : AbstractWorld P.Item) → Represents B.items s self.now w →
            result ≡ sum_of_places s w (λ a. a.count.items) }
    {
        self.tables.total
    }

    /// The report of the run: how many items were expanded, what their values combine to, and the
    /// counters of each place.
    pub fn into_report(self) -> Report<P::Value>
        ensures items { result.items ≡ self.total }
        ensures value { result.value ≡ self.value }
        ensures counters { result.counters.items ≡ map (λ y. y.counters) self.place_rows }
        ensures world { (s : Setup) (w : AbstractWorld P.Item) → Represents B.items s self w
            → result.counters.items ≡ all_counters s w }
    {
        let World { tables, report } = self;
        report::report(tables, report)
    }
}
