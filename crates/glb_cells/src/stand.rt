//! A place's handle with the shared object: the fabric of a place.
ghost use Rattle.std.specs.Prelude.{◌≡◌, ◌++◌, false};
ghost use Rattle.glb_cells.specs.Berths.{IsOf};
ghost use Rattle.glb_cells.specs.Looking.{looks_of};

use super::berth::Berth;
use super::cells::Cells;
use glb_core::{Edge, Kind, Side};
use glb_laws::{Bag, NoMemory, Program};
use glb_place::Fabric;
use std::sync::Wait;

/// One place over the shared cells. None of its calls waits, and none wants memory.
#[derive(Drop)]
pub struct Stand<'a, P: Program, B: Bag<P>> {
    pub(crate) cells: &'a Cells<P, B>,
    pub(crate) berth: Berth<P, B>,
    ghost here: { IsOf cells.now berth },
}

impl<'a, P: Program, B: Bag<P>> Stand<'a, P, B> {
    pub fn new(cells: &'a Cells<P, B>, berth: Berth<P, B>) -> Stand<'a, P, B>
        requires here { IsOf cells.now berth }
        ensures cells { result.cells.now ≡ cells.now }
        ensures berth { result.berth ≡ berth }
    {
        Stand { cells, berth }
    }

    /// Gives the berth back.
    pub fn leave(self) -> Berth<P, B>
        ensures here { IsOf self.entry.cells.now result }
        ensures berth { result ≡ self.entry.berth }
    {
        self.berth
    }
}

impl<'a, P: Program, B: Bag<P>> Fabric<P, B> for Stand<'a, P, B> {
    /// The shared object, and the place's number.
    type Home = (Cells<P, B>, u32);

    ghost program = { λ s. s.cells.now.program };

    ghost kept = { λ s. s.berth.kept };

    ghost home = { λ s. (s.cells.now, s.berth.kept.place) };

    ghost refuses = { λ s. false };

    ghost looks = { λ s. looks_of s.berth.kept.place s.berth.looks };

    fn settle(&mut self, rt: &impl Wait, bag: &B, done: u64, gain: &P::Value) -> u64 {
        let _ = rt;
        self.cells.settle(&mut self.berth, bag, done, gain)
    }

    fn ask(&mut self, rt: &impl Wait, victim: u32, kind: Kind) -> Result<(), NoMemory> {
        let _ = rt;
        self.cells.ask(&mut self.berth, victim, kind);
        Ok(())
    }

    fn look(&mut self, rt: &impl Wait, other: u32, kind: Kind, side: Side) -> Edge {
        let _ = rt;
        self.berth.note_look(other, kind, side);
        self.cells.look(&mut self.berth, other, kind, side)
    }

    fn deny(&mut self, rt: &impl Wait, thief: u32, kind: Kind) -> Result<(), NoMemory> {
        let _ = rt;
        self.cells.deny(&mut self.berth, thief, kind);
        Ok(())
    }

    fn mint(&mut self, rt: &impl Wait) {
        let _ = rt;
        self.cells.mint(&mut self.berth);
    }

    fn give(
        &mut self,
        rt: &impl Wait,
        thief: u32,
        kind: Kind,
        part: B,
    ) -> Result<(), (NoMemory, B)> {
        let _ = rt;
        self.cells.give(&mut self.berth, thief, kind, part);
        Ok(())
    }

    fn take(&mut self, rt: &impl Wait, victim: u32, kind: Kind) -> B {
        let _ = rt;
        self.cells.take(&mut self.berth, victim, kind)
    }

    fn burn(&mut self, rt: &impl Wait) {
        let _ = rt;
        self.cells.burn(&mut self.berth);
    }

    fn shrug(&mut self, rt: &impl Wait, victim: u32, kind: Kind) -> bool {
        let _ = rt;
        self.cells.shrug(&mut self.berth, victim, kind)
    }

    fn sleep(&mut self, rt: &impl Wait) -> bool {
        let _ = rt;
        self.cells.sleep(&mut self.berth)
    }

    fn over(&mut self, rt: &impl Wait) -> bool {
        let _ = rt;
        self.berth.note_live();
        self.cells.over(&mut self.berth)
    }

    fn halt(&mut self, rt: &impl Wait, code: u64) {
        let _ = rt;
        self.cells.halt(&mut self.berth, code);
    }

    fn halted(&mut self, rt: &impl Wait) -> u64 {
        let _ = rt;
        self.berth.note_stop();
        self.cells.halted(&mut self.berth)
    }
}
