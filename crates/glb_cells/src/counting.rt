//! The steps on live and on stop, each one operation on that word. None of them waits or takes
//! memory.
ghost use Rattle.std.specs.Prelude.{◌≡◌, ◌≢◌, ◌<◌, ◌≤◌, ◌⊎◌, ◌==◌};
ghost use Rattle.glb_rules.specs.declared.event.Event.TheVariants as event;
ghost use Rattle.glb_rules.specs.declared.kinds.Phase.TheVariants as phases;
ghost use Rattle.glb_place.specs.Records.{May};
ghost use Rattle.glb_place.specs.Rows.{mint_row, burn_row, sleep_row, halt_row, halted_row};
ghost use Rattle.glb_cells.specs.Plays.{read_live};
ghost use Rattle.glb_cells.specs.Berths.{Belongs, Moved};

use super::berth::Berth;
use super::cells::Cells;
use super::{states, steps};
use glb_core::Credit;
use glb_laws::{Bag, Program};
use glb_place::counts::count_sleep;

impl<P: Program, B: Bag<P>> Cells<P, B> {
    /// The place takes a credit for a part that it is going to give.
    pub fn mint(&self, berth: &mut Berth<P, B>)
        requires here { Belongs self.now berth.old }
        requires may { May berth.old.kept (event.Mint berth.old.kept.place) }
        ensures here { Belongs self.now berth.new }
        ensures moved { Moved 1 mint_row berth.old berth.new }
    {
        steps::mint(&self.table.shared, &mut berth.seat);
        berth.state.credit = Credit::Minted;
    }

    /// The place gives back one of its two credits.
    pub fn burn(&self, berth: &mut Berth<P, B>)
        requires here { Belongs self.now berth.old }
        requires may { May berth.old.kept (event.Burn berth.old.kept.place) }
        ensures here { Belongs self.now berth.new }
        ensures moved { Moved 1 burn_row berth.old berth.new }
    {
        steps::burn(&self.table.shared, &mut berth.seat);
        berth.state.credit = Credit::One;
    }

    /// The place gives its credit back and falls asleep. True exactly where live was 1.
    pub fn sleep(&self, berth: &mut Berth<P, B>) -> bool
        requires here { Belongs self.now berth.old }
        requires may { May berth.old.kept (event.Sleep berth.old.kept.place) }
        ensures here { Belongs self.now berth.new }
        ensures moved { Moved 1 sleep_row berth.old berth.new }
        ensures found { result ≡ (berth.new.found == 1) }
    {
        let live = steps::sleep(&self.table.shared, &mut berth.seat);
        states::sleep(&mut berth.state);
        count_sleep(&mut berth.counters);
        live == 1
    }

    /// True exactly where live reads 0. The place then leaves.
    pub fn over(&self, berth: &mut Berth<P, B>) -> bool
        requires here { Belongs self.now berth.old }
        requires going { berth.old.kept.local.phase ≢ phases.Gone }
        ensures here { Belongs self.now berth.new }
        ensures moved { Moved 1 (read_live berth.new.found) berth.old berth.new }
        ensures found { result ≡ (berth.new.found == 0) }
    {
        let live = steps::over(&self.table.shared, &mut berth.seat);
        states::leave(&mut berth.state, live == 0);
        live == 0
    }

    /// The code that stop reads. Where it is not 0, the place leaves.
    pub fn halted(&self, berth: &mut Berth<P, B>) -> u64
        requires here { Belongs self.now berth.old }
        requires going { berth.old.kept.local.phase ≢ phases.Gone }
        ensures here { Belongs self.now berth.new }
        ensures moved { Moved 1 (halted_row result) berth.old berth.new }
        ensures found { result ≡ berth.new.found }
        ensures least { berth.old.kept.code ≤ result }
    {
        let code = steps::halted(&self.table.shared, &mut berth.seat);
        states::leave(&mut berth.state, code != 0);
        code
    }

    /// Raises stop to this code.
    pub fn halt(&self, berth: &mut Berth<P, B>, code: u64)
        requires here { Belongs self.now berth.old }
        requires going { berth.old.kept.local.phase ≢ phases.Gone }
        requires code { (code ≡ 1) ⊎ (code ≡ 2) }
        requires cause { code ≡ 1 → berth.old.kept.params.limit < berth.old.kept.last }
        ensures here { Belongs self.now berth.new }
        ensures moved { Moved 1 (halt_row code) berth.old berth.new }
    {
        steps::halt(&self.table.shared, &mut berth.seat, code);
    }
}
