//! What becomes of a lane where a message comes over it, and where the place looks at it or acts.
ghost use Rattle.std.specs.Prelude.{◌≡◌, ◌≢◌, ◌<◌, [], ◌∷◌, length, true, false, Option, Some};
ghost use Rattle.std.specs.Prelude.{None};
ghost use Rattle.std.specs.Prelude.{IfSome};
ghost use Rattle.glb_rules.specs.declared.kinds.Edge.TheVariants as seen;
ghost use Rattle.glb_rules.specs.declared.kinds.Mark.TheVariants as marks;
ghost use Rattle.glb_rules.specs.declared.kinds.Side.TheVariants as sides;
ghost use Rattle.glb_place.specs.Calls.{CanFind};
ghost use Rattle.glb_place.specs.Looks.{raised};
ghost use Rattle.glb_rules.specs.declared.kinds.Kind.TheVariants as kinds;
ghost use Rattle.glb_inbox.specs.declared.view.Member.TheVariants.{Request, Refusal, Parcel};
ghost use Rattle.glb_inbox.specs.Keeping.{Allows, Hears, looked, told_by};
ghost use Rattle.glb_inbox.specs.Viewing.{asked_by, lane_view};
ghost use Rattle.glb_inbox.specs.inner.Members.{wanted};
ghost use Rattle.glb_inbox.specs.inner.Posted.{Says};
ghost use Rattle.glb_inbox.specs.inner.Lanes.{told, without_line_refusal, CanBring, IsAnswer};
ghost use Rattle.glb_inbox.specs.inner.Lanes.{IsLane, SameKnown};

use super::lane::{Answer, Lane};
use super::rule::{Slip, Words};
use glb_core::{Edge, Kind};
use glb_laws::{Bag, Program};
use std::mem;

/// Whether the victim of an edge in this state keeps a request.
fn is_wanted(kind: Kind, edge: Edge) -> bool
    ensures wanted { result ≡ true → wanted kind edge ≡ 1 }
    ensures free { result ≡ false → wanted kind edge ≡ 0 }
{
    match (kind, edge) {
        (_, Edge::Asked) | (Kind::Line, Edge::Refused) => true,
        _ => false,
    }
}

/// Keeps a request, or drops it where the thief cannot have made it.
pub fn keep_request<P: Program, B: Bag<P>>(
    words: &Words<P, B, P::Item>,
    kind: Kind,
    lane: &mut Lane<B, P::Item>,
    seat: Slip<P::Item>,
)
    requires lane { IsLane B.items B.fits words.now.table_id words.now.key.program.value kind
        lane.old }
    requires good { Says words.now.table_id (Request kind ∷ []) seat }
    ensures lane { IsLane B.items B.fits words.now.table_id words.now.key.program.value kind
        lane.new }
    ensures known { SameKnown lane.old lane.new }
    ensures hears { Hears kind sides.Inward lane.old.inward seen.Asked (lane_view lane.old)
        (lane_view lane.new) }
{
    let _ = words;
    if lane.request.is_none() && !is_wanted(kind, lane.inward) {
        lane.request = Some(seat);
    }
}

/// Whether an edge in this state can turn out to be Refused.
fn may_be_refused(edge: Edge) -> bool
    ensures asked { result ≡ true → edge ≡ seen.Asked }
    ensures other { result ≡ false → edge ≢ seen.Asked }
{
    edge == Edge::Asked
}

/// Whether a part can come over an edge in this state.
fn may_bring_a_part(kind: Kind, edge: Edge) -> bool
    ensures can { result ≡ true → CanBring kind edge }
    ensures new { result ≡ true → edge ≢ seen.Loot }
    ensures cannot { result ≡ false → Allows kind sides.Outward edge seen.Loot → ⊥ }
{
    match (kind, edge) {
        (_, Edge::Asked) | (Kind::Line, Edge::Refused) => true,
        _ => false,
    }
}

/// Keeps a refusal, or drops it where the victim cannot have sent it.
pub fn keep_refusal<P: Program, B: Bag<P>>(
    words: &Words<P, B, P::Item>,
    lane: &mut Lane<B, P::Item>,
    seat: Slip<P::Item>,
)
    requires lane { IsLane B.items B.fits words.now.table_id words.now.key.program.value kinds.Steal
        lane.old }
    requires good { Says words.now.table_id (Refusal ∷ []) seat }
    ensures lane { IsLane B.items B.fits words.now.table_id words.now.key.program.value kinds.Steal
        lane.new }
    ensures known { SameKnown lane.old lane.new }
    ensures hears { Hears kinds.Steal sides.Outward lane.old.outward seen.Refused
        (lane_view lane.old) (lane_view lane.new) }
{
    let _ = words;
    if may_be_refused(lane.told()) {
        lane.answer = Answer::Refusal(seat);
    }
}

/// The same of a lifeline.
pub fn keep_line_refusal<P: Program, B: Bag<P>>(
    words: &Words<P, B, P::Item>,
    lane: &mut Lane<B, P::Item>,
)
    requires lane { IsLane B.items B.fits words.now.table_id words.now.key.program.value kinds.Line
        lane.old }
    ensures lane { IsLane B.items B.fits words.now.table_id words.now.key.program.value kinds.Line
        lane.new }
    ensures known { SameKnown lane.old lane.new }
    ensures hears { Hears kinds.Line sides.Outward lane.old.outward seen.Refused
        (lane_view lane.old) (lane_view lane.new) }
{
    let _ = words;
    if may_be_refused(lane.told()) {
        lane.answer = Answer::LineRefusal;
    }
}

/// Keeps a part, or drops it where the victim cannot have sent it.
pub fn keep_part<P: Program, B: Bag<P>>(
    words: &Words<P, B, P::Item>,
    kind: Kind,
    lane: &mut Lane<B, P::Item>,
    part: B,
    seat: Slip<P::Item>,
)
    requires lane { IsLane B.items B.fits words.now.table_id words.now.key.program.value kind
        lane.old }
    requires good { IsAnswer B.items B.fits words.now.table_id words.now.key.program.value kind
        (Answer.Part part seat) }
    ensures lane { IsLane B.items B.fits words.now.table_id words.now.key.program.value kind
        lane.new }
    ensures known { SameKnown lane.old lane.new }
    ensures hears { Hears kind sides.Outward lane.old.outward seen.Loot (lane_view lane.old)
        (lane_view lane.new) }
{
    let _ = words;
    if may_bring_a_part(kind, lane.told()) {
        lane.answer = Answer::Part { part, seat };
    }
}

/// The request that came and was not known, which then is.
pub fn take_request<P: Program, B: Bag<P>>(
    words: &Words<P, B, P::Item>,
    kind: Kind,
    lane: &mut Lane<B, P::Item>,
) -> Option<Slip<P::Item>>
    requires lane { IsLane B.items B.fits words.now.table_id words.now.key.program.value kind
        lane.old }
    ensures lane { IsLane B.items B.fits words.now.table_id words.now.key.program.value kind
        lane.new }
    ensures found { IfSome result (λ s. Says words.now.table_id (Request kind ∷ []) s
        × (wanted kind lane.old.inward ≡ 0) × (lane.new.inward ≡ seen.Asked)) }
    ensures none { result ≡ None → lane.new.inward ≡ lane.old.inward }
    ensures outward { lane.new.outward ≡ lane.old.outward }
    ensures looks { (lane.new.inward_looks ≡ raised lane.old.inward_looks)
        × (lane.new.outward_looks ≡ lane.old.outward_looks) }
    ensures kept { asked_by lane.old.request ≡ asked_by result }
    ensures looked { lane_view lane.new ≡ looked sides.Inward (lane_view lane.old) }
{
    let _ = words;
    lane.inward_looks = lane.inward_looks.saturating_add(1);
    let request = lane.request.take();
    if request.is_some() {
        lane.inward = Edge::Asked;
    }
    request
}

fn forget_line_refusal<B: Drop, I>(answer: &mut Answer<B, I>)
    ensures { answer.new ≡ without_line_refusal answer.old }
{
    if let Answer::LineRefusal = answer {
        *answer = Answer::Nothing;
    }
}

/// What the outward edge is by what came over it. It is then known so.
pub fn learn_answer<P: Program, B: Bag<P>>(
    words: &Words<P, B, P::Item>,
    kind: Kind,
    lane: &mut Lane<B, P::Item>,
) -> Edge
    requires lane { IsLane B.items B.fits words.now.table_id words.now.key.program.value kind
        lane.old }
    ensures lane { IsLane B.items B.fits words.now.table_id words.now.key.program.value kind
        lane.new }
    ensures told { result ≡ told lane.old.outward lane.old.answer }
    ensures outward { lane.new.outward ≡ result }
    ensures finds { CanFind marks.Unseen kind sides.Outward lane.old.outward result }
    ensures inward { lane.new.inward ≡ lane.old.inward }
    ensures looks { (lane.new.outward_looks ≡ raised lane.old.outward_looks)
        × (lane.new.inward_looks ≡ lane.old.inward_looks) }
    ensures answers { result ≡ told_by lane.old.outward (lane_view lane.old).outward }
    ensures looked { lane_view lane.new ≡ looked sides.Outward (lane_view lane.old) }
{
    let _ = words;
    let _ = kind;
    lane.outward_looks = lane.outward_looks.saturating_add(1);
    let edge = lane.told();
    lane.outward = edge;
    forget_line_refusal(&mut lane.answer);
    edge
}

/// The part that is known to wait.
pub fn take_part<P: Program, B: Bag<P>>(
    words: &Words<P, B, P::Item>,
    kind: Kind,
    lane: &mut Lane<B, P::Item>,
) -> (B, Slip<P::Item>)
    requires lane { IsLane B.items B.fits words.now.table_id words.now.key.program.value kind
        lane.old }
    requires loot { lane.old.outward ≡ seen.Loot }
    ensures lane { IsLane B.items B.fits words.now.table_id words.now.key.program.value kind
        lane.new }
    ensures part { IsAnswer B.items B.fits words.now.table_id words.now.key.program.value kind
        (Answer.Part result.0 result.1) }
    ensures outward { lane.new.outward ≡ seen.Idle }
    ensures inward { lane.new.inward ≡ lane.old.inward }
    ensures looks { (lane.new.inward_looks ≡ lane.old.inward_looks)
        × (lane.new.outward_looks ≡ lane.old.outward_looks) }
{
    let _ = words;
    let _ = kind;
    lane.outward = Edge::Idle;
    match mem::replace(&mut lane.answer, Answer::Nothing) {
        Answer::Part { part, seat } => (part, seat),
        Answer::Nothing | Answer::LineRefusal => unreachable!(),
        Answer::Refusal(_seat) => unreachable!(),
    }
}

/// The seat of the refusal that is known.
pub fn take_refusal<P: Program, B: Bag<P>>(
    words: &Words<P, B, P::Item>,
    lane: &mut Lane<B, P::Item>,
) -> Slip<P::Item>
    requires lane { IsLane B.items B.fits words.now.table_id words.now.key.program.value kinds.Steal
        lane.old }
    requires refused { lane.old.outward ≡ seen.Refused }
    ensures lane { IsLane B.items B.fits words.now.table_id words.now.key.program.value kinds.Steal
        lane.new }
    ensures seat { Says words.now.table_id (Refusal ∷ []) result }
    ensures outward { lane.new.outward ≡ seen.Idle }
    ensures inward { lane.new.inward ≡ lane.old.inward }
    ensures looks { (lane.new.inward_looks ≡ lane.old.inward_looks)
        × (lane.new.outward_looks ≡ lane.old.outward_looks) }
{
    let _ = words;
    lane.outward = Edge::Idle;
    match mem::replace(&mut lane.answer, Answer::Nothing) {
        Answer::Refusal(seat) => seat,
        Answer::Nothing | Answer::LineRefusal => unreachable!(),
        Answer::Part {
            part: _part,
            seat: _seat,
        } => unreachable!(),
    }
}

/// The place answered the request that it knew, and the edge is now so.
pub fn answer_request<P: Program, B: Bag<P>>(
    words: &Words<P, B, P::Item>,
    kind: Kind,
    lane: &mut Lane<B, P::Item>,
    edge: Edge,
)
    requires lane { IsLane B.items B.fits words.now.table_id words.now.key.program.value kind
        lane.old }
    requires wanted { wanted kind lane.old.inward ≡ 1 }
    ensures lane { IsLane B.items B.fits words.now.table_id words.now.key.program.value kind
        lane.new }
    ensures inward { lane.new.inward ≡ edge }
    ensures outward { lane.new.outward ≡ lane.old.outward }
    ensures looks { (lane.new.inward_looks ≡ lane.old.inward_looks)
        × (lane.new.outward_looks ≡ lane.old.outward_looks) }
{
    let _ = words;
    let _ = kind;
    lane.inward = edge;
}

/// The place asked over the edge.
pub fn note_asked<P: Program, B: Bag<P>>(
    words: &Words<P, B, P::Item>,
    kind: Kind,
    lane: &mut Lane<B, P::Item>,
)
    requires lane { IsLane B.items B.fits words.now.table_id words.now.key.program.value kind
        lane.old }
    requires idle { lane.old.outward ≡ seen.Idle }
    ensures lane { IsLane B.items B.fits words.now.table_id words.now.key.program.value kind
        lane.new }
    ensures outward { lane.new.outward ≡ seen.Asked }
    ensures inward { lane.new.inward ≡ lane.old.inward }
    ensures looks { (lane.new.inward_looks ≡ lane.old.inward_looks)
        × (lane.new.outward_looks ≡ lane.old.outward_looks) }
{
    let _ = words;
    let _ = kind;
    lane.outward = Edge::Asked;
}
