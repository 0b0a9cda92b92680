//! Where bytes come from, and the one fault of reads and writes.
ghost use Rattle.std.specs.Prelude.{◌≡◌, ℕ, ◌<◌, ◌≤◌, List, [], length, take, IfOk, OnOk, OnErr};
ghost use Rattle.std.specs.declared.option.Option.{Option};
ghost use Rattle.glb_io.specs.Bytes.{Takes, NoneLeft};
ghost use Rattle.glb_io.specs.Faults.{Rose};

/// A read or a write did not work.
#[derive(Clone, Copy, Debug, PartialEq, Eq)]
pub struct Failed;

/// Where bytes come from.
pub trait Source: Drop {
    /// The bytes still to come, where they are told.
    ghost left: { Self → Option (List ℕ) };

    /// How many faults there were. It stops at 2 ^ 64 - 1.
    ghost faults: { Self → ℕ };

    /// `Ok(0)` for a piece that is not empty is the end.
    fn read(&mut self, into: &mut [u8]) -> Result<usize, Failed>
        ensures within { IfOk result (λ k. k ≤ length into.new) }
        ensures taken { IfOk result (λ k. Takes (left self.old) (left self.new) (take k into.new)) }
        ensures end { IfOk result (λ k. k ≡ 0 → 0 < length into.new → NoneLeft (left self.new)) }
        ensures stays { OnErr result (Takes (left self.old) (left self.new) []) }
        ensures later { faults self.old ≤ faults self.new }
        ensures cause { OnErr result (Rose (faults self.old) (faults self.new)) }
        ensures no_fault { OnOk result (faults self.new ≡ faults self.old) };
}
