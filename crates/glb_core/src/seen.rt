//! What a place sees of the others.
ghost use Rattle.std.specs.Prelude.{◌≡◌, ◌<◌, ◌==◌, ◌++◌, not, map, IfOk, OnOk};
ghost use Rattle.glb_core.specs.Seen.{sight, first_steal_in, first_line_in, first_line_out};
ghost use Rattle.glb_core.specs.Seen.{first_sight, IsMadeFor};
ghost use Rattle.glb_rules.specs.Sight.{each_below};

use crate::{Edge, InEdge, Kind, Mark, OutEdge};
use glb_cube::Lines;
use glb_laws::NoMemory;
use std::alloc::Global;

/// All that a place sees: its in-edges, the steal edges by rising thief and then the lines by
/// rising thief; its lines by rising dimension; the edge that it waits on, which says nothing in
/// other phases; whether the number live was read as 0; and the stop code.
#[derive(Debug, Drop)]
pub struct Seen {
    pub ins: Vec<InEdge>,
    pub outs: Vec<OutEdge>,
    pub waited: Edge,
    pub ended: bool,
    pub stop: u64,
}

impl Seen {
    /// What a place sees before it has looked at anything. A caller overwrites what it knows
    /// better.
    pub fn new(alloc: Global, place: u32, lines: &Lines) -> Result<Seen, NoMemory>
        requires place { place < lines.now.places }
        ensures first { IfOk result (λ z. sight z ≡ first_sight lines.now place) }
        ensures made { IfOk result (λ z. IsMadeFor lines.now place (sight z)) }
    {
        let mut ins = Vec::new(alloc);
        push_steals(&mut ins, place, lines.places())?;
        push_lines(&mut ins, lines.into(place))?;
        let outs = refused_lines(alloc, lines.out(place))?;
        Ok(Seen {
            ins,
            outs,
            waited: Edge::Idle,
            ended: false,
            stop: 0,
        })
    }
}

fn push_steals(ins: &mut Vec<InEdge>, place: u32, places: u32) -> Result<(), NoMemory>
    ensures { OnOk result (ins.new.items ≡
        ins.old.items ++ each_below places (λ t. not (t == place)) first_steal_in) }
{
    for thief in 0..places {
        if thief != place {
            ins.push(InEdge {
                thief,
                kind: Kind::Steal,
                mark: Mark::Unseen,
                edge: Edge::Idle,
            })?;
        }
    }
    Ok(())
}

fn push_lines(ins: &mut Vec<InEdge>, thieves: &[u32]) -> Result<(), NoMemory>
    ensures { OnOk result (ins.new.items ≡ ins.old.items ++ map first_line_in thieves.now) }
{
    for thief in thieves {
        ins.push(InEdge {
            thief: *thief,
            kind: Kind::Line,
            mark: Mark::Unseen,
            edge: Edge::Refused,
        })?;
    }
    Ok(())
}

fn refused_lines(alloc: Global, victims: &[u32]) -> Result<Vec<OutEdge>, NoMemory>
    ensures { IfOk result (λ v. v.items ≡ map first_line_out victims.now) }
{
    let mut outs = Vec::new(alloc);
    for victim in victims {
        outs.push(OutEdge {
            victim: *victim,
            edge: Edge::Refused,
        })?;
    }
    Ok(outs)
}
