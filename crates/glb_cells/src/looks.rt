//! How often a place looked at each of its edges, at live and at stop.
ghost use Rattle.std.specs.Prelude.{◌≡◌, ◌<◌, IfOk, length, replicate, slice_index, slice_set, get_or};
ghost use Rattle.glb_rules.specs.declared.kinds.Kind.TheVariants as kinds;
ghost use Rattle.glb_rules.specs.declared.kinds.Side.TheVariants as sides;
ghost use Rattle.glb_place.specs.Looks.{raised};
ghost use Rattle.glb_cells.specs.inner.Raising.{raise_where};

use glb_core::{Kind, Side};
use glb_laws::NoMemory;
use glb_place::APART;
use std::alloc::Global;

/// A number for each edge, by the place at its other end, one for live and one for stop.
#[derive(Drop)]
pub struct LookCounts {
    pub steals_in: Vec<u64>,
    pub lines_in: Vec<u64>,
    pub steals_out: Vec<u64>,
    pub lines_out: Vec<u64>,
    pub live: u64,
    pub stop: u64,
}

/// One more, up to the last value of the type.
fn raise(row: &mut Vec<u64>, other: u32)
    requires { other < length row.old.items }
    ensures { row.new.items
        ≡ slice_set row.old.items other (raised (get_or row.old.items other 0)) }
{
    let count = row[other as usize];
    row[other as usize] = count.saturating_add(1);
}

/// A count for each place, on cache lines of their own.
fn zeros(alloc: Global, places: u32) -> Result<Vec<u64>, NoMemory>
    ensures { IfOk result (λ v. v.items ≡ replicate places 0) }
{
    let mut counts = vec![in alloc; 0; places as usize]?;
    counts.reserve(APART / size_of::<u64>())?;
    Ok(counts)
}

impl LookCounts {
    /// Nothing was looked at.
    pub(crate) fn new(alloc: Global, places: u32) -> Result<LookCounts, NoMemory>
        ensures steals_in { IfOk result (λ c. c.steals_in.items ≡ replicate places 0) }
        ensures lines_in { IfOk result (λ c. c.lines_in.items ≡ replicate places 0) }
        ensures steals_out { IfOk result (λ c. c.steals_out.items ≡ replicate places 0) }
        ensures lines_out { IfOk result (λ c. c.lines_out.items ≡ replicate places 0) }
    {
        Ok(LookCounts {
            steals_in: zeros(alloc, places)?,
            lines_in: zeros(alloc, places)?,
            steals_out: zeros(alloc, places)?,
            lines_out: zeros(alloc, places)?,
            live: 0,
            stop: 0,
        })
    }

    /// The place looked at its edge with the other one.
    pub(crate) fn raise_edge(&mut self, other: u32, kind: Kind, side: Side)
        requires steals_in { other < length self.old.steals_in.items }
        requires lines_in { other < length self.old.lines_in.items }
        requires steals_out { other < length self.old.steals_out.items }
        requires lines_out { other < length self.old.lines_out.items }
        ensures steals_in { self.new.steals_in.items
            ≡ raise_where kinds.Steal sides.Inward kind side other self.old.steals_in.items }
        ensures lines_in { self.new.lines_in.items
            ≡ raise_where kinds.Line sides.Inward kind side other self.old.lines_in.items }
        ensures steals_out { self.new.steals_out.items
            ≡ raise_where kinds.Steal sides.Outward kind side other self.old.steals_out.items }
        ensures lines_out { self.new.lines_out.items
            ≡ raise_where kinds.Line sides.Outward kind side other self.old.lines_out.items }
        ensures live { self.new.live ≡ self.old.live }
        ensures stop { self.new.stop ≡ self.old.stop }
    {
        match side {
            Side::Inward => match kind {
                Kind::Steal => raise(&mut self.steals_in, other),
                Kind::Line => raise(&mut self.lines_in, other),
            },
            Side::Outward => match kind {
                Kind::Steal => raise(&mut self.steals_out, other),
                Kind::Line => raise(&mut self.lines_out, other),
            },
        }
    }
}
