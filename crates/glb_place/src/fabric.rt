//! What a place needs of the others. A record stands for all that a fabric keeps for its place;
//! each call but a look asks for the place's own side of its event's condition, and moves the
//! record by the event's row.
ghost use Rattle.std.specs.Prelude.{◌≡◌, ◌≢◌, ℕ, ◌<◌, ◌≤◌, ◌⊎◌, ◌++◌, Bool, true, false, List, length, IfOk, OnOk, IfErr, OnErr};
ghost use Rattle.glb_laws.specs.Expansion.{Expands};
ghost use Rattle.glb_rules.specs.Events.{name_of};
ghost use Rattle.glb_rules.specs.declared.event.Event.TheVariants as event;
ghost use Rattle.glb_rules.specs.declared.kinds.Edge.TheVariants as seen;
ghost use Rattle.glb_rules.specs.declared.kinds.Kind.TheVariants as kinds;
ghost use Rattle.glb_rules.specs.declared.kinds.Phase.TheVariants as phase;
ghost use Rattle.glb_place.specs.declared.record.Record.{Record};
ghost use Rattle.glb_place.specs.Records.{May};
ghost use Rattle.glb_place.specs.Rows.{known_row, ask_row, deny_row, mint_row, give_row, take_row, burn_row, shrug_row, sleep_row, over_row, halt_row, halted_row};
ghost use Rattle.glb_place.specs.Calls.{edge_with, MayFind, look_row, IsOwn, Settles, HasMore, Gives, SameObject};
ghost use Rattle.glb_place.specs.Looks.{Looks, SameLooks, LooksAt, LooksAtLive, LooksAtStop};

use glb_core::{Edge, Kind, Side};
use glb_laws::{Bag, NoMemory, Program};
use std::sync::Wait;

/// The shared object, as one place sees it.
pub trait Fabric<P: Program, B: Bag<P>>: Drop {
    /// What names the object that it was made with, and the place.
    type Home;

    /// The program of the object.
    ghost program: { Self → P };

    /// The place's record.
    ghost kept: { Self → Record P.Item };

    /// With which object it was made, and for which place.
    ghost home: { Self → Self.Home };

    /// Whether a call may want memory. Where it is false, none does.
    ghost refuses: { Self → Bool };

    /// How often each edge, live and stop were looked at.
    ghost looks: { Self → Looks };

    /// Counts `done` items, and answers the total of all places.
    fn settle(&mut self, rt: &impl Wait, bag: &B, done: u64, gain: &P::Value) -> u64
        requires may { May (kept self.old) (event.Batch (kept self.old).place) }
        requires batch { (1 ≤ done) × (done ≤ (kept self.old).params.batch) }
        requires last { (kept self.old).last ≤ (kept self.old).params.limit }
        requires moves { Expands (P.children (program self.old)) (P.value (program self.old))
            P.Value.combine (kept self.old).local.bag P.Value.unit done (B.items bag.now) gain.now }
        ensures kept { Settles (P.children (program self.old)) (P.value (program self.old))
            P.Value.unit P.Value.combine done (B.items bag.now) gain.now result
            (kept self.old) (kept self.new) }
        ensures same { SameObject program home refuses self.old self.new }
        ensures looks { SameLooks (looks self.old) (looks self.new) };

    fn ask(&mut self, rt: &impl Wait, victim: u32, kind: Kind) -> Result<(), NoMemory>
        requires may { May (kept self.old) (event.Ask (kept self.old).place victim kind) }
        ensures kept { OnOk result (kept self.new ≡ ask_row victim kind (kept self.old)) }
        ensures refused { OnErr result (kept self.new ≡ kept self.old) }
        ensures free { OnErr result (refuses self.old ≡ true) }
        ensures same { SameObject program home refuses self.old self.new }
        ensures looks { SameLooks (looks self.old) (looks self.new) };

    /// The edge as known after this call.
    fn look(&mut self, rt: &impl Wait, other: u32, kind: Kind, side: Side) -> Edge
        requires own { IsOwn (kept self.old) other kind side }
        ensures kept { kept self.new ≡ look_row other kind side result (kept self.old) }
        ensures found { MayFind (kept self.old) other kind side result }
        ensures same { SameObject program home refuses self.old self.new }
        ensures looks { LooksAt (edge_with (kept self.old).place other kind side)
            (looks self.old) (looks self.new) };

    fn deny(&mut self, rt: &impl Wait, thief: u32, kind: Kind) -> Result<(), NoMemory>
        requires may { May (kept self.old) (event.Deny (kept self.old).place thief kind) }
        ensures kept { OnOk result (kept self.new ≡ deny_row thief kind (kept self.old)) }
        ensures refused { OnErr result (kept self.new ≡ kept self.old) }
        ensures free { OnErr result (refuses self.old ≡ true) }
        ensures same { SameObject program home refuses self.old self.new }
        ensures looks { SameLooks (looks self.old) (looks self.new) };

    fn mint(&mut self, rt: &impl Wait)
        requires may { May (kept self.old) (event.Mint (kept self.old).place) }
        ensures kept { kept self.new ≡ mint_row (kept self.old) }
        ensures same { SameObject program home refuses self.old self.new }
        ensures looks { SameLooks (looks self.old) (looks self.new) };

    /// Hands the part back where there is no memory.
    fn give(&mut self, rt: &impl Wait, thief: u32, kind: Kind, part: B) -> Result<(), (NoMemory, B)>
        requires may { May (kept self.old) (event.Give (kept self.old).place thief kind) }
        requires part { 0 < length (B.items part) }
        requires fits { B.fits part (program self.old) }
        requires rest { HasMore (B.items part) (kept self.old) }
        ensures kept { OnOk result
            (Gives (give_row thief kind) (B.items part) (kept self.old) (kept self.new)) }
        ensures refused { IfErr result (λ e. (B.items e.1 ≡ B.items part)
            × B.fits e.1 (program self.old) × (kept self.new ≡ kept self.old)) }
        ensures free { OnErr result (refuses self.old ≡ true) }
        ensures same { SameObject program home refuses self.old self.new }
        ensures looks { SameLooks (looks self.old) (looks self.new) };

    /// The part that waits on the edge.
    fn take(&mut self, rt: &impl Wait, victim: u32, kind: Kind) -> B
        requires may { May (kept self.old) (event.Take (kept self.old).place victim kind) }
        ensures kept { kept self.new ≡ take_row victim kind (B.items result)
            (B.items result ++ (kept self.old).local.bag) (kept self.old) }
        ensures some { 0 < length (B.items result) }
        ensures fits { B.fits result (program self.old) }
        ensures same { SameObject program home refuses self.old self.new }
        ensures looks { SameLooks (looks self.old) (looks self.new) };

    fn burn(&mut self, rt: &impl Wait)
        requires may { May (kept self.old) (event.Burn (kept self.old).place) }
        ensures kept { kept self.new ≡ burn_row (kept self.old) }
        ensures same { SameObject program home refuses self.old self.new }
        ensures looks { SameLooks (looks self.old) (looks self.new) };

    /// Whether the edge was Refused. Of a line it is false where a part waits on it already.
    fn shrug(&mut self, rt: &impl Wait, victim: u32, kind: Kind) -> bool
        requires may { May (kept self.old) (event.Shrug (kept self.old).place victim kind) }
        ensures kept { result ≡ true → kept self.new ≡ shrug_row victim kind (kept self.old) }
        ensures loot { result ≡ false → (kind ≡ kinds.Line)
            × (kept self.new ≡ known_row (name_of kind (kept self.old).place victim) seen.Loot
            (kept self.old)) }
        ensures same { SameObject program home refuses self.old self.new }
        ensures looks { SameLooks (looks self.old) (looks self.new) };

    /// Whether live was 1 before.
    fn sleep(&mut self, rt: &impl Wait) -> bool
        requires may { May (kept self.old) (event.Sleep (kept self.old).place) }
        ensures kept { kept self.new ≡ sleep_row (kept self.old) }
        ensures same { SameObject program home refuses self.old self.new }
        ensures looks { SameLooks (looks self.old) (looks self.new) };

    /// Whether live reads 0. The place then leaves.
    fn over(&mut self, rt: &impl Wait) -> bool
        requires here { (kept self.old).local.phase ≢ phase.Gone }
        ensures over { result ≡ true → kept self.new ≡ over_row (kept self.old) }
        ensures going { result ≡ false → kept self.new ≡ kept self.old }
        ensures same { SameObject program home refuses self.old self.new }
        ensures looks { LooksAtLive (looks self.old) (looks self.new) };

    /// Raises the stop code to this one.
    fn halt(&mut self, rt: &impl Wait, code: u64)
        requires here { (kept self.old).local.phase ≢ phase.Gone }
        requires code { (code ≡ 1) ⊎ (code ≡ 2) }
        requires cause { code ≡ 1 → (kept self.old).params.limit < (kept self.old).last }
        ensures kept { kept self.new ≡ halt_row code (kept self.old) }
        ensures same { SameObject program home refuses self.old self.new }
        ensures looks { SameLooks (looks self.old) (looks self.new) };

    /// The stop code, 0 for none. Where it is not 0, the place leaves.
    fn halted(&mut self, rt: &impl Wait) -> u64
        requires here { (kept self.old).local.phase ≢ phase.Gone }
        ensures kept { kept self.new ≡ halted_row result (kept self.old) }
        ensures least { (kept self.old).code ≤ result }
        ensures same { SameObject program home refuses self.old self.new }
        ensures looks { LooksAtStop (looks self.old) (looks self.new) };
}
