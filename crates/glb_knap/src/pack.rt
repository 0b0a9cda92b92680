//! What has been taken so far.
ghost use Rattle.std.specs.Prelude.{◌≡◌, ◌+◌, ◌-◌, ◌^◌, ◌<◌, ◌++◌, ◌∷◌, [], OnOk, OnErr};
ghost use Rattle.glb_knap.specs.Packs.{packs_by, without, with_line};

use super::line::Line;
use glb_laws::NoMemory;

/// Lines taken out of the first `next` that were decided: their weight and value together, and a
/// bit for each of them, that of the first line of the text being the lowest.
#[derive(Clone, Copy, Debug, PartialEq, Eq)]
pub struct Pack {
    pub next: u32,
    pub weight: u64,
    pub value: u64,
    pub taken: u64,
}

impl Pack {
    /// The value.
    pub(crate) fn worth(&self) -> u64
        ensures { result ≡ self.now.value }
    {
        self.value
    }

    /// The pack that leaves the next line out.
    fn without(&self) -> Pack
        requires { self.now.next < 2 ^ 32 - 1 }
        ensures { result ≡ without self.now }
    {
        Pack {
            next: self.next + 1,
            ..*self
        }
    }

    /// The pack that takes the next line.
    fn with(&self, line: &Line) -> Pack
        requires next { self.now.next < 2 ^ 32 - 1 }
        requires weight { self.now.weight + line.now.weight < 2 ^ 64 }
        ensures { result ≡ with_line line.now self.now }
    {
        Pack {
            next: self.next + 1,
            weight: self.weight + line.weight,
            value: self.value.saturating_add(line.value),
            taken: self.taken | line.bit,
        }
    }

    /// Appends the pack that leaves a line out, and the one that takes it, where it fits.
    #[inline(always)]
    pub(crate) fn push_below(
        &self,
        line: &Line,
        capacity: u64,
        out: &mut Vec<Pack>,
    ) -> Result<(), NoMemory>
        requires next { self.now.next < 2 ^ 32 - 1 }
        ensures appended { OnOk result
            (out.new.items ≡ out.old.items ++ packs_by capacity (line.now ∷ []) self.now) }
        ensures unchanged { OnErr result (out.new.items ≡ out.old.items) }
    {
        out.reserve(2)?;
        out.push_reserved(self.without());
        if self.weight <= capacity && line.weight <= capacity - self.weight {
            out.push_reserved(self.with(line));
        }
        Ok(())
    }
}
