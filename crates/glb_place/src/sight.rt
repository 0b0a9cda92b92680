//! What a place sees, kept up to date.
ghost use Rattle.std.specs.Prelude.{◌≡◌, ◌<◌, ◌≤◌, ℕ, true, false, length, map, set, slice_index_or};
ghost use Rattle.glb_rules.specs.Effects.{mark_after_look};
ghost use Rattle.glb_rules.specs.Decision.{is_unseen};
ghost use Rattle.glb_place.specs.inner.Seeing.{is_from as spec_is_from, with_mark, unmarked, with_line, lines_noted, LookedBefore};

use glb_core::{Edge, InEdge, Kind, Mark, OutEdge};

/// The mark that a look leaves.
pub(crate) fn mark_of(edge: Edge) -> Mark
    ensures { result ≡ mark_after_look edge }
{
    match edge {
        Edge::Asked => Mark::Pending,
        Edge::Idle | Edge::Refused | Edge::Loot => Mark::Clear,
    }
}

/// Notes what is known of the in-edge at the index.
pub(crate) fn note_at(ins: &mut Vec<InEdge>, at: usize, mark: Mark, edge: Edge)
    requires { at < length ins.old.items }
    ensures { (d : InEdge) → ins.new.items ≡ set ins.old.items at
        (record (slice_index_or ins.old.items at d) { mark = mark; edge = edge }) }
{
    let entry = &mut ins[at];
    entry.mark = mark;
    entry.edge = edge;
}

/// Whether it is the in-edge of this kind from this thief.
fn is_from(entry: &InEdge, kind: Kind, thief: u32) -> bool
    ensures { result ≡ spec_is_from kind thief entry.now }
{
    let same = match (kind, entry.kind) {
        (Kind::Steal, Kind::Steal) | (Kind::Line, Kind::Line) => true,
        _ => false,
    };
    same && thief == entry.thief
}

fn mark_one(entry: &mut InEdge, kind: Kind, thief: u32, mark: Mark, edge: Edge)
    ensures { entry.new ≡ with_mark kind thief mark edge entry.old }
{
    if is_from(entry, kind, thief) {
        entry.mark = mark;
        entry.edge = edge;
    }
}

/// Notes what is known of the in-edge from this thief.
pub(crate) fn note_in(ins: &mut Vec<InEdge>, kind: Kind, thief: u32, mark: Mark, edge: Edge)
    ensures { ins.new.items ≡ map (with_mark kind thief mark edge) ins.old.items }
{
    for entry in ins.iter_mut() {
        mark_one(entry, kind, thief, mark, edge);
    }
}

fn unmark(entry: &mut InEdge)
    ensures { entry.new ≡ unmarked entry.old }
{
    entry.mark = Mark::Unseen;
}

/// Forgets the marks of all in-edges.
pub(crate) fn unmark_all(ins: &mut Vec<InEdge>)
    ensures { ins.new.items ≡ map unmarked ins.old.items }
{
    for entry in ins.iter_mut() {
        unmark(entry);
    }
}

fn note_one(line: &mut OutEdge, victim: u32, edge: Edge)
    ensures { line.new ≡ with_line victim edge line.old }
{
    if victim == line.victim {
        line.edge = edge;
    }
}

/// Notes what is known of the line to this victim.
pub(crate) fn note_out(outs: &mut Vec<OutEdge>, victim: u32, edge: Edge)
    ensures { outs.new.items ≡ map (with_line victim edge) outs.old.items }
{
    for line in outs.iter_mut() {
        note_one(line, victim, edge);
    }
}

/// Notes what is known of the edge to this victim, if it is a line.
pub(crate) fn note_line(outs: &mut Vec<OutEdge>, kind: Kind, victim: u32, edge: Edge)
    ensures { outs.new.items ≡ lines_noted kind victim edge outs.old.items }
{
    match kind {
        Kind::Steal => {}
        Kind::Line => note_out(outs, victim, edge),
    }
}

/// The first in-edge that is not looked at, from this one on; where there is none, the number of
/// in-edges.
pub(crate) fn first_unseen(ins: &[InEdge], from: usize) -> usize
    requires before { LookedBefore ins.now from }
    ensures before { LookedBefore ins.now result }
    ensures here { (d : InEdge) → result < length ins.now
        → is_unseen (slice_index_or ins.now result d) ≡ true }
    ensures all { length ins.now ≤ result → (i : ℕ) (d : InEdge) → i < length ins.now
        → is_unseen (slice_index_or ins.now i d) ≡ false }
{
    for at in from..ins.len() {
        if matches!(ins[at].mark, Mark::Unseen) {
            return at;
        }
    }
    ins.len().max(from)
}
