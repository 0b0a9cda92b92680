//! Where bytes go.
ghost use Rattle.std.specs.Prelude.{◌≡◌, ℕ, ◌≤◌, List, length, take, IfErr, OnOk, OnErr};
ghost use Rattle.std.specs.declared.option.Option.{Option};
ghost use Rattle.glb_io.specs.Bytes.{Gives};
ghost use Rattle.glb_io.specs.Faults.{Rose};

use super::source::Failed;

/// Where bytes go.
pub trait Sink: Drop {
    /// The bytes taken so far, where they are told.
    ghost taken: { Self → Option (List ℕ) };

    /// How many faults there were. It stops at 2 ^ 64 - 1.
    ghost faults: { Self → ℕ };

    /// One call with this piece may lead from the first state to the second. Nothing else is known
    /// of it, so where it stands between two states, one call was made.
    ghost one_call: { Self → List ℕ → Self → Type 0 };

    /// `Err` says how many bytes at the front of the piece were taken.
    fn write_all(&mut self, piece: &[u8]) -> Result<(), (Failed, usize)>
        ensures whole { OnOk result (Gives (taken self.old) (taken self.new) piece.now) }
        ensures part { IfErr result (λ e.
            Gives (taken self.old) (taken self.new) (take e.1 piece.now)) }
        ensures within { IfErr result (λ e. e.1 ≤ length piece.now) }
        ensures later { faults self.old ≤ faults self.new }
        ensures cause { OnErr result (Rose (faults self.old) (faults self.new)) }
        ensures no_fault { OnOk result (faults self.new ≡ faults self.old) }
        ensures called { one_call self.old piece.now self.new };
}
