//! The lanes of a place, one of each kind for each other place.
ghost use Rattle.std.specs.Prelude.{◌≡◌, ◌*◌, ◌<◌, ◌≤◌, [], ◌∷◌, length, get_or, Some, None};
ghost use Rattle.std.specs.Prelude.{IfSome};
ghost use Rattle.glb_rules.specs.declared.kinds.Edge.TheVariants as seen;
ghost use Rattle.glb_rules.specs.declared.kinds.Kind.TheVariants as kinds;
ghost use Rattle.glb_rules.specs.declared.kinds.Mark.TheVariants as marks;
ghost use Rattle.glb_rules.specs.declared.kinds.Side.TheVariants as sides;
ghost use Rattle.glb_place.specs.Calls.{CanFind};
ghost use Rattle.glb_inbox.specs.declared.view.Member.TheVariants.{Request, Refusal};
ghost use Rattle.glb_inbox.specs.declared.lane.Lane.{Lane as ALane};
ghost use Rattle.glb_inbox.specs.inner.Members.{wanted};
ghost use Rattle.glb_inbox.specs.inner.Posted.{IsGoodAt, Says, tie};
ghost use Rattle.glb_inbox.specs.Keeping.{MayReceive, Receives, kept_at, lane_at, look_at, told_by};
ghost use Rattle.glb_inbox.specs.Viewing.{asked_by};
ghost use Rattle.glb_inbox.specs.inner.Books.{lane_views, lanes_know, message_of};
ghost use Rattle.glb_inbox.specs.inner.Lanes.{AreLanes, IsAnswer, KnowsAsBefore, SetsInward};
ghost use Rattle.glb_inbox.specs.inner.Lanes.{SetsOutward, LanesStay, LooksInward, LooksOutward};

use super::keeping;
use super::lane::{Answer, Lane};
use super::message::Message;
use super::rule::{Slip, Words};
use glb_core::{Edge, Kind};
use glb_laws::{Bag, Program};

/// Where the lane of this kind with this place stands.
pub fn lane_index(places: usize, kind: Kind, other: u32) -> usize
    requires { (other < places) × (places ≤ 64) }
    ensures at { result ≡ lane_at places kind other }
    ensures within { result < 2 * places }
{
    match kind {
        Kind::Steal => other as usize,
        Kind::Line => places + other as usize,
    }
}

/// The place asked over the edge.
pub fn note_asked<P: Program, B: Bag<P>>(
    words: &Words<P, B, P::Item>,
    places: usize,
    lanes: &mut Vec<Lane<B, P::Item>>,
    kind: Kind,
    victim: u32,
)
    requires lanes { AreLanes B.items B.fits words.now.table_id words.now.key.program.value places
        lanes.old.items }
    requires near { (victim < places) × (places ≤ 64) }
    requires idle { (d : ALane B P.Item)
        → (get_or lanes.old.items (lane_at places kind victim) d).outward ≡ seen.Idle }
    ensures lanes { AreLanes B.items B.fits words.now.table_id words.now.key.program.value places
        lanes.new.items }
    ensures sets { SetsOutward (lane_at places kind victim) seen.Asked lanes.old.items
        lanes.new.items }
    ensures stay { LanesStay lanes.old.items lanes.new.items }
{
    let i = lane_index(places, kind, victim);
    keeping::note_asked(words, kind, &mut lanes[i]);
}

/// The place answered the request that it knew, and the edge is now so.
pub fn answer_request<P: Program, B: Bag<P>>(
    words: &Words<P, B, P::Item>,
    places: usize,
    lanes: &mut Vec<Lane<B, P::Item>>,
    kind: Kind,
    thief: u32,
    edge: Edge,
)
    requires lanes { AreLanes B.items B.fits words.now.table_id words.now.key.program.value places
        lanes.old.items }
    requires near { (thief < places) × (places ≤ 64) }
    requires asked { (d : ALane B P.Item)
        → wanted kind (get_or lanes.old.items (lane_at places kind thief) d).inward ≡ 1 }
    ensures lanes { AreLanes B.items B.fits words.now.table_id words.now.key.program.value places
        lanes.new.items }
    ensures sets { SetsInward (lane_at places kind thief) edge lanes.old.items lanes.new.items }
    ensures stay { LanesStay lanes.old.items lanes.new.items }
{
    let i = lane_index(places, kind, thief);
    keeping::answer_request(words, kind, &mut lanes[i], edge);
}

/// The part that is known to wait.
pub fn take_part<P: Program, B: Bag<P>>(
    words: &Words<P, B, P::Item>,
    places: usize,
    lanes: &mut Vec<Lane<B, P::Item>>,
    kind: Kind,
    victim: u32,
) -> (B, Slip<P::Item>)
    requires lanes { AreLanes B.items B.fits words.now.table_id words.now.key.program.value places
        lanes.old.items }
    requires near { (victim < places) × (places ≤ 64) }
    requires loot { (d : ALane B P.Item)
        → (get_or lanes.old.items (lane_at places kind victim) d).outward ≡ seen.Loot }
    ensures lanes { AreLanes B.items B.fits words.now.table_id words.now.key.program.value places
        lanes.new.items }
    ensures part { IsAnswer B.items B.fits words.now.table_id words.now.key.program.value kind
        (Answer.Part result.0 result.1) }
    ensures sets { SetsOutward (lane_at places kind victim) seen.Idle lanes.old.items
        lanes.new.items }
    ensures stay { LanesStay lanes.old.items lanes.new.items }
{
    let i = lane_index(places, kind, victim);
    keeping::take_part(words, kind, &mut lanes[i])
}

/// The seat of the refusal that is known.
pub fn take_refusal<P: Program, B: Bag<P>>(
    words: &Words<P, B, P::Item>,
    places: usize,
    lanes: &mut Vec<Lane<B, P::Item>>,
    victim: u32,
) -> Slip<P::Item>
    requires lanes { AreLanes B.items B.fits words.now.table_id words.now.key.program.value places
        lanes.old.items }
    requires near { (victim < places) × (places ≤ 64) }
    requires refused { (d : ALane B P.Item)
        → (get_or lanes.old.items (lane_at places kinds.Steal victim) d).outward ≡ seen.Refused }
    ensures lanes { AreLanes B.items B.fits words.now.table_id words.now.key.program.value places
        lanes.new.items }
    ensures seat { Says words.now.table_id (Refusal ∷ []) result }
    ensures sets { SetsOutward (lane_at places kinds.Steal victim) seen.Idle lanes.old.items
        lanes.new.items }
    ensures stay { LanesStay lanes.old.items lanes.new.items }
{
    let i = lane_index(places, Kind::Steal, victim);
    keeping::take_refusal(words, &mut lanes[i])
}

/// The request that came and was not known, which then is. The edge was looked at.
pub fn take_request<P: Program, B: Bag<P>>(
    words: &Words<P, B, P::Item>,
    places: usize,
    lanes: &mut Vec<Lane<B, P::Item>>,
    kind: Kind,
    thief: u32,
) -> Option<Slip<P::Item>>
    requires lanes { AreLanes B.items B.fits words.now.table_id words.now.key.program.value places
        lanes.old.items }
    requires near { (thief < places) × (places ≤ 64) }
    ensures lanes { AreLanes B.items B.fits words.now.table_id words.now.key.program.value places
        lanes.new.items }
    ensures found { IfSome result (λ s. Says words.now.table_id (Request kind ∷ []) s
        × ((d : ALane B P.Item) → wanted kind
        (get_or lanes.old.items (lane_at places kind thief) d).inward ≡ 0)
        × SetsInward (lane_at places kind thief) seen.Asked lanes.old.items lanes.new.items) }
    ensures none { result ≡ None → KnowsAsBefore lanes.old.items lanes.new.items }
    ensures looks { LooksInward (lane_at places kind thief) lanes.old.items lanes.new.items }
    ensures kept { kept_at (lane_at places kind thief) sides.Inward (lane_views lanes.old.items)
        ≡ asked_by result }
    ensures looked { lane_views lanes.new.items
        ≡ look_at (lane_at places kind thief) sides.Inward (lane_views lanes.old.items) }
{
    let i = lane_index(places, kind, thief);
    keeping::take_request(words, kind, &mut lanes[i])
}

/// What the outward edge is by what came over it. It is then known so, and was looked at.
pub fn learn_answer<P: Program, B: Bag<P>>(
    words: &Words<P, B, P::Item>,
    places: usize,
    lanes: &mut Vec<Lane<B, P::Item>>,
    kind: Kind,
    victim: u32,
) -> Edge
    requires lanes { AreLanes B.items B.fits words.now.table_id words.now.key.program.value places
        lanes.old.items }
    requires near { (victim < places) × (places ≤ 64) }
    ensures lanes { AreLanes B.items B.fits words.now.table_id words.now.key.program.value places
        lanes.new.items }
    ensures finds { (d : ALane B P.Item)
        → CanFind marks.Unseen kind sides.Outward
        (get_or lanes.old.items (lane_at places kind victim) d).outward result }
    ensures sets { SetsOutward (lane_at places kind victim) result lanes.old.items lanes.new.items }
    ensures looks { LooksOutward (lane_at places kind victim) lanes.old.items lanes.new.items }
    ensures answers { result ≡ told_by (lanes_know places lanes.old.items victim kind sides.Outward)
        (kept_at (lane_at places kind victim) sides.Outward (lane_views lanes.old.items)) }
    ensures looked { lane_views lanes.new.items
        ≡ look_at (lane_at places kind victim) sides.Outward (lane_views lanes.old.items) }
{
    let i = lane_index(places, kind, victim);
    keeping::learn_answer(words, kind, &mut lanes[i])
}

/// What is known of the inward edge.
pub fn inward_at<B, I>(places: usize, lanes: &Vec<Lane<B, I>>, kind: Kind, thief: u32) -> Edge
    requires near { (thief < places) × (places ≤ 64) }
    requires wide { length lanes.now.items ≡ 2 * places }
    ensures { (d : ALane B I)
        → result ≡ (get_or lanes.now.items (lane_at places kind thief) d).inward }
{
    let i = lane_index(places, kind, thief);
    let lane = &lanes[i];
    lane.inward
}

fn keep_request<P: Program, B: Bag<P>>(
    words: &Words<P, B, P::Item>,
    places: usize,
    lanes: &mut Vec<Lane<B, P::Item>>,
    thief: u32,
    kind: Kind,
    seat: Slip<P::Item>,
)
    requires lanes { AreLanes B.items B.fits words.now.table_id words.now.key.program.value places
        lanes.old.items }
    requires near { (thief < places) × (places ≤ 64) }
    requires good { Says words.now.table_id (Request kind ∷ []) seat }
    ensures lanes { AreLanes B.items B.fits words.now.table_id words.now.key.program.value places
        lanes.new.items }
    ensures known { KnowsAsBefore lanes.old.items lanes.new.items }
    ensures stay { LanesStay lanes.old.items lanes.new.items }
    ensures receives { Receives places (lanes_know places lanes.old.items)
        (message_of thief kind sides.Inward seen.Asked) (lane_views lanes.old.items)
        (lane_views lanes.new.items) }
{
    let i = lane_index(places, kind, thief);
    keeping::keep_request(words, kind, &mut lanes[i], seat);
}

fn keep_refusal<P: Program, B: Bag<P>>(
    words: &Words<P, B, P::Item>,
    places: usize,
    lanes: &mut Vec<Lane<B, P::Item>>,
    victim: u32,
    seat: Slip<P::Item>,
)
    requires lanes { AreLanes B.items B.fits words.now.table_id words.now.key.program.value places
        lanes.old.items }
    requires near { (victim < places) × (places ≤ 64) }
    requires good { Says words.now.table_id (Refusal ∷ []) seat }
    ensures lanes { AreLanes B.items B.fits words.now.table_id words.now.key.program.value places
        lanes.new.items }
    ensures known { KnowsAsBefore lanes.old.items lanes.new.items }
    ensures stay { LanesStay lanes.old.items lanes.new.items }
    ensures receives { Receives places (lanes_know places lanes.old.items)
        (message_of victim kinds.Steal sides.Outward seen.Refused) (lane_views lanes.old.items)
        (lane_views lanes.new.items) }
{
    let i = lane_index(places, Kind::Steal, victim);
    keeping::keep_refusal(words, &mut lanes[i], seat);
}

fn keep_line_refusal<P: Program, B: Bag<P>>(
    words: &Words<P, B, P::Item>,
    places: usize,
    lanes: &mut Vec<Lane<B, P::Item>>,
    victim: u32,
)
    requires lanes { AreLanes B.items B.fits words.now.table_id words.now.key.program.value places
        lanes.old.items }
    requires near { (victim < places) × (places ≤ 64) }
    ensures lanes { AreLanes B.items B.fits words.now.table_id words.now.key.program.value places
        lanes.new.items }
    ensures known { KnowsAsBefore lanes.old.items lanes.new.items }
    ensures stay { LanesStay lanes.old.items lanes.new.items }
    ensures receives { Receives places (lanes_know places lanes.old.items)
        (message_of victim kinds.Line sides.Outward seen.Refused) (lane_views lanes.old.items)
        (lane_views lanes.new.items) }
{
    let i = lane_index(places, Kind::Line, victim);
    keeping::keep_line_refusal(words, &mut lanes[i]);
}

fn keep_part<P: Program, B: Bag<P>>(
    words: &Words<P, B, P::Item>,
    places: usize,
    lanes: &mut Vec<Lane<B, P::Item>>,
    victim: u32,
    kind: Kind,
    part: B,
    seat: Slip<P::Item>,
)
    requires lanes { AreLanes B.items B.fits words.now.table_id words.now.key.program.value places
        lanes.old.items }
    requires near { (victim < places) × (places ≤ 64) }
    requires good { IsAnswer B.items B.fits words.now.table_id words.now.key.program.value kind
        (Answer.Part part seat) }
    ensures lanes { AreLanes B.items B.fits words.now.table_id words.now.key.program.value places
        lanes.new.items }
    ensures known { KnowsAsBefore lanes.old.items lanes.new.items }
    ensures stay { LanesStay lanes.old.items lanes.new.items }
    ensures receives { Receives places (lanes_know places lanes.old.items)
        (message_of victim kind sides.Outward seen.Loot) (lane_views lanes.old.items)
        (lane_views lanes.new.items) }
{
    let i = lane_index(places, kind, victim);
    keeping::keep_part(words, kind, &mut lanes[i], part, seat);
}

/// Keeps a message beside its edge. One that names no place, or that no place can have sent after
/// what is known and kept of its edge, is dropped.
pub fn keep<P: Program, B: Bag<P>>(
    words: &Words<P, B, P::Item>,
    places: usize,
    lanes: &mut Vec<Lane<B, P::Item>>,
    message: Message<B, P::Item>,
)
    requires lanes { AreLanes B.items B.fits words.now.table_id words.now.key.program.value places
        lanes.old.items }
    requires few { places ≤ 64 }
    requires good { IsGoodAt B.items B.fits (tie words.now.key.program.value words.now.table_id)
        message }
    ensures lanes { AreLanes B.items B.fits words.now.table_id words.now.key.program.value places
        lanes.new.items }
    ensures known { KnowsAsBefore lanes.old.items lanes.new.items }
    ensures stay { LanesStay lanes.old.items lanes.new.items }
    ensures receives { MayReceive places (lanes_know places lanes.old.items)
        (lane_views lanes.old.items) (lane_views lanes.new.items) }
{
    match message {
        Message::Ask { thief, kind, seat } => {
            if (thief as usize) < places {
                keep_request(words, places, lanes, thief, kind, seat);
            }
        }
        Message::Refuse { victim, seat } => {
            if (victim as usize) < places {
                keep_refusal(words, places, lanes, victim, seat);
            }
        }
        Message::RefuseLine { victim } => {
            if (victim as usize) < places {
                keep_line_refusal(words, places, lanes, victim);
            }
        }
        Message::Part {
            victim,
            kind,
            part,
            seat,
        } => {
            if (victim as usize) < places {
                keep_part(words, places, lanes, victim, kind, part, seat);
            }
        }
    }
}
