//! A place of two that is played by hand, over any fabric. Each call tests first whether the event
//! is one that the place may do, by what it keeps at run time.
ghost use Rattle.std.specs.Prelude.{◌≡◌, ◌≢◌, ◌⊎◌, ◌<◌, ◌≤◌, ◌&&◌, cond, length, true, IfOk};
ghost use Rattle.glb_laws.specs.Expansion.{Expands};
ghost use Rattle.glb_rules.specs.Effects.{mark_after_look, phase_after_batch};
ghost use Rattle.glb_rules.specs.Decision.{is_mark};
ghost use Rattle.glb_rules.specs.declared.kinds.Mark.TheVariants as marks;
ghost use Rattle.glb_rules.specs.declared.kinds.Phase.TheVariants as phases;
ghost use Rattle.glb_place.specs.Records.{IsFirst};
ghost use Rattle.glb_place.specs.Calls.{SameObject, is_working};
ghost use Rattle.glb_run.specs.inner.Hands.{two_params, two_places};

use glb_core::{Credit, Edge, Kind, Mark, Phase, Side};
use glb_laws::{Bag, Monoid, NoMemory, Program};
use glb_place::Fabric;
use std::marker::{Model, PhantomData};
use std::sync::Wait;
use std::test::Fail;

/// A place, its bag, the part that was split off and not given, and of its record what the tests of
/// its calls need.
#[derive(Drop)]
pub(super) struct Hand<P: Program, B: Bag<P>, F: Fabric<P, B>> {
    fabric: F,
    bag: B,
    part: Option<B>,
    place: u32,
    phase: Phase,
    credit: Credit,
    steal_mark: Mark,
    line_mark: Mark,
    line_in: Option<Edge>,
    line_out: Edge,
    total: u64,
    program: PhantomData<P>,
}

impl<P: Program, B: Bag<P>, F: Fabric<P, B>> Model for Hand<P, B, F> {
    ghost use Rattle.glb_run.specs.inner.Hands.{Follows, Carries};

    ghost Value = { F };

    ghost view = { λ h. h.fabric };

    ghost invariant = { λ h. Follows (F.kept h.fabric) h.place h.phase h.credit h.steal_mark
        h.line_mark h.line_in h.line_out h.total
        × Carries B.items B.fits (F.program h.fabric) (F.kept h.fabric) h.bag h.part };
}

/// The mark after a look that found this.
fn mark_seen(phase: Phase, mark: Mark, found: Edge) -> Mark
    ensures { result ≡ cond (is_working phase && is_mark marks.Unseen mark)
        (mark_after_look found) mark }
{
    match (phase, mark) {
        (Phase::Working, Mark::Unseen) => found.mark_after_look(),
        _ => mark,
    }
}

/// Expands at most one item. How many it was.
fn expand_one<P: Program, B: Bag<P>>(bag: &mut B, program: &P, gain: &mut P::Value) -> u64
    requires fits { B.fits bag.old program.now }
    ensures moves { Expands (P.children program.now) (P.value program.now) P.Value.combine
        (B.items bag.old) gain.old result (B.items bag.new) gain.new }
    ensures most { result ≤ 1 }
    ensures fits { B.fits bag.new program.now }
{
    match bag.process(program, 1, gain) {
        Ok(done) => done,
        Err(stopped) => stopped.done,
    }
}

/// The phase of a place after a batch that left this bag.
fn phase_with<P: Program, B: Bag<P>>(bag: &B) -> Phase
    ensures { result ≡ phase_after_batch (B.items bag.now) }
{
    if bag.len() == 0 {
        Phase::Idle
    } else {
        Phase::Working
    }
}

impl<P: Program, B: Bag<P>, F: Fabric<P, B>> Hand<P, B, F> {
    /// The place at the start, with items.
    pub(super) fn new(place: u32, bag: B, fabric: F) -> Result<Hand<P, B, F>, Fail>
        requires place { place < 2 }
        requires first { IsFirst two_places two_params place (B.items bag) (F.kept fabric) }
        requires fits { B.fits bag (F.program fabric) }
        ensures { IfOk result (λ hand. hand ≡ fabric) }
    {
        if bag.len() == 0 {
            return Err(Fail::new("the place has no items"));
        }
        Ok(Hand {
            fabric,
            bag,
            part: None,
            place,
            phase: Phase::Working,
            credit: Credit::One,
            steal_mark: Mark::Unseen,
            line_mark: Mark::Unseen,
            line_in: None,
            line_out: Edge::Idle,
            total: 0,
            program: PhantomData,
        })
    }

    /// Gives the fabric back.
    pub(super) fn leave(self) -> F
        ensures { result ≡ self }
    {
        self.fabric
    }

    /// Looks at the steal edge that leads to the place.
    pub(super) fn look_steal(&mut self, rt: &impl Wait) -> Edge
        ensures { SameObject F.program F.home F.refuses self.old self.new }
    {
        let other = 1 - self.place;
        let found = self.fabric.look(rt, other, Kind::Steal, Side::Inward);
        self.steal_mark = mark_seen(self.phase, self.steal_mark, found);
        found
    }

    /// Looks at the line that leads to the place.
    pub(super) fn look_in(&mut self, rt: &impl Wait) -> Edge
        ensures { SameObject F.program F.home F.refuses self.old self.new }
    {
        let other = 1 - self.place;
        let found = self.fabric.look(rt, other, Kind::Line, Side::Inward);
        self.line_mark = mark_seen(self.phase, self.line_mark, found);
        self.line_in = Some(found);
        found
    }

    /// Looks at the line of the place.
    pub(super) fn look_out(&mut self, rt: &impl Wait) -> Edge
        ensures { SameObject F.program F.home F.refuses self.old self.new }
    {
        let other = 1 - self.place;
        let found = self.fabric.look(rt, other, Kind::Line, Side::Outward);
        self.line_out = found;
        found
    }

    /// Expands the one item of the bag.
    pub(super) fn batch(&mut self, rt: &impl Wait, program: &P) -> Result<(), Fail>
        requires { program.now ≡ F.program self.old }
        ensures { SameObject F.program F.home F.refuses self.old self.new }
    {
        match (self.phase, self.credit, self.steal_mark, self.line_mark) {
            (Phase::Working, Credit::One, Mark::Clear, Mark::Clear) => {}
            _ => return Err(Fail::new("the place may not expand")),
        }
        if self.part.is_some() || self.bag.len() > 1 || self.total > 99 {
            return Err(Fail::new("the place has too much"));
        }
        let mut gain = P::Value::unit();
        let done = expand_one(&mut self.bag, program, &mut gain);
        if done == 0 {
            return Err(Fail::new("nothing was expanded"));
        }
        self.total = self.fabric.settle(rt, &self.bag, done, &gain);
        self.phase = phase_with::<P, B>(&self.bag);
        self.steal_mark = Mark::Unseen;
        self.line_mark = Mark::Unseen;
        Ok(())
    }

    /// Asks over the line of the place.
    pub(super) fn ask(&mut self, rt: &impl Wait) -> Result<(), Fail>
        ensures { SameObject F.program F.home F.refuses self.old self.new }
    {
        match (self.phase, self.line_out) {
            (Phase::Idle, Edge::Idle) => {}
            _ => return Err(Fail::new("the place may not ask")),
        }
        let other = 1 - self.place;
        match self.fabric.ask(rt, other, Kind::Line) {
            Ok(()) => {}
            Err(NoMemory) => return Err(Fail::new("no memory")),
        }
        self.phase = Phase::Waiting {
            victim: other,
            kind: Kind::Line,
        };
        self.line_out = Edge::Asked;
        Ok(())
    }

    /// Whether the place has nothing to give.
    fn has_none_to_give(&self) -> bool
        ensures { result ≡ true → ((F.kept self.now).local.phase ≢ phases.Gone)
            × (((F.kept self.now).local.phase ≢ phases.Working)
            ⊎ (length (F.kept self.now).local.bag < 2)) }
    {
        match self.phase {
            Phase::Idle | Phase::Waiting { .. } | Phase::Asleep => true,
            Phase::Working => self.part.is_none() && self.bag.len() < 2,
            Phase::Gone => false,
        }
    }

    /// Refuses the request over the line that leads to the place.
    pub(super) fn deny(&mut self, rt: &impl Wait) -> Result<(), Fail>
        ensures { SameObject F.program F.home F.refuses self.old self.new }
    {
        let Some(Edge::Asked) = self.line_in else {
            return Err(Fail::new("nobody asks"));
        };
        if !self.has_none_to_give() {
            return Err(Fail::new("the place may not refuse"));
        }
        let other = 1 - self.place;
        match self.fabric.deny(rt, other, Kind::Line) {
            Ok(()) => {}
            Err(NoMemory) => return Err(Fail::new("no memory")),
        }
        self.line_mark = Mark::Clear;
        self.line_in = Some(Edge::Refused);
        Ok(())
    }

    /// Splits a part off for the line that leads to the place, whose request it refused.
    pub(super) fn mint(&mut self, rt: &impl Wait) -> Result<(), Fail>
        ensures { SameObject F.program F.home F.refuses self.old self.new }
    {
        match (self.phase, self.credit) {
            (Phase::Working, Credit::One) => {}
            _ => return Err(Fail::new("the place may not split")),
        }
        let Some(Edge::Refused) = self.line_in else {
            return Err(Fail::new("nobody is to be given a part"));
        };
        if self.part.is_some() {
            return Err(Fail::new("a part is split off"));
        }
        match self.bag.split() {
            Ok(Some(part)) => {
                self.fabric.mint(rt);
                self.part = Some(part);
                self.credit = Credit::Minted;
                Ok(())
            }
            Ok(None) => Err(Fail::new("one item cannot be split")),
            Err(NoMemory) => Err(Fail::new("no memory")),
        }
    }

    /// Gives the part over that line.
    pub(super) fn give(&mut self, rt: &impl Wait) -> Result<(), Fail>
        ensures { SameObject F.program F.home F.refuses self.old self.new }
    {
        match (self.phase, self.credit) {
            (Phase::Working, Credit::Minted) => {}
            _ => return Err(Fail::new("the place may not give")),
        }
        let Some(Edge::Refused) = self.line_in else {
            return Err(Fail::new("nobody is to be given a part"));
        };
        let Some(part) = self.part.take() else {
            return Err(Fail::new("nothing is split off"));
        };
        if part.len() == 0 || self.bag.len() == 0 {
            self.part = Some(part);
            return Err(Fail::new("the part has no items, or all"));
        }
        let other = 1 - self.place;
        match self.fabric.give(rt, other, Kind::Line, part) {
            Ok(()) => {}
            Err((NoMemory, part)) => {
                self.part = Some(part);
                return Err(Fail::new("no memory"));
            }
        }
        self.credit = Credit::One;
        self.line_mark = Mark::Clear;
        self.line_in = Some(Edge::Loot);
        Ok(())
    }

    /// Takes the part that waits on the line of the place, which sleeps.
    pub(super) fn take(&mut self, rt: &impl Wait) -> Result<(), Fail>
        ensures { SameObject F.program F.home F.refuses self.old self.new }
    {
        match (self.phase, self.line_out) {
            (Phase::Asleep, Edge::Loot) => {}
            _ => return Err(Fail::new("the place may not take")),
        }
        if self.part.is_some() {
            return Err(Fail::new("a part is beside the bag"));
        }
        let other = 1 - self.place;
        let part = self.fabric.take(rt, other, Kind::Line);
        self.phase = Phase::Working;
        self.credit = self.credit.after_take();
        self.line_out = Edge::Idle;
        match self.bag.merge(part) {
            Ok(()) => Ok(()),
            Err((NoMemory, part)) => {
                self.part = Some(part);
                Err(Fail::new("no memory"))
            }
        }
    }

    /// Takes note of the refusal on the line of the place.
    pub(super) fn shrug(&mut self, rt: &impl Wait) -> Result<(), Fail>
        ensures { SameObject F.program F.home F.refuses self.old self.new }
    {
        let other = 1 - self.place;
        match (self.phase, self.line_out) {
            (
                Phase::Waiting {
                    victim,
                    kind: Kind::Line,
                },
                Edge::Refused,
            ) => {
                if victim != other {
                    return Err(Fail::new("the place waits for another one"));
                }
            }
            _ => return Err(Fail::new("the place may not shrug")),
        }
        if self.fabric.shrug(rt, other, Kind::Line) {
            self.phase = Phase::Idle;
            Ok(())
        } else {
            self.line_out = Edge::Loot;
            Err(Fail::new("a part is there"))
        }
    }

    /// Falls asleep. Whether live was 1 before.
    pub(super) fn sleep(&mut self, rt: &impl Wait) -> Result<bool, Fail>
        ensures { SameObject F.program F.home F.refuses self.old self.new }
    {
        match (self.phase, self.line_out) {
            (Phase::Idle, Edge::Refused) => {}
            _ => return Err(Fail::new("the place may not sleep")),
        }
        let last = self.fabric.sleep(rt);
        self.phase = Phase::Asleep;
        self.credit = Credit::Zero;
        Ok(last)
    }
}
