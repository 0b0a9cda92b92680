//! A place at the start.
ghost use Rattle.std.specs.Prelude.{◌≡◌, ◌<◌, None, map};
ghost use Rattle.glb_rules.specs.Setups.{tries_of as spec_tries_of, has_items};
ghost use Rattle.glb_rules.specs.History.{first_phase, first_credit};
ghost use Rattle.glb_core.specs.Victims.{FirstVictim};
ghost use Rattle.glb_cube.specs.Lines.{IsCube};
ghost use Rattle.glb_rules.specs.Setups.{IsWithinLimits};
ghost use Rattle.glb_core.specs.Seen.{sight, first_sight};
ghost use Rattle.glb_place.specs.Records.{IsFirst};
ghost use Rattle.glb_place.specs.inner.Seeing.{with_state, first_known};
ghost use Rattle.glb_place.specs.inner.Standing.{Stands};

use crate::fabric::Fabric;
use crate::holding::Holding;
use glb_core::{Credit, Edge, OutEdge, Params, Phase, PlaceState, Seen, victim};
use glb_laws::{Bag, Monoid, Program};
use glb_stats::Counters;
use rand_core::utils::NextWord;
use rand_pcg::Pcg32;

const NO_COUNTERS: Counters = Counters {
    items: 0,
    asks: 0,
    shrugs: 0,
    denied: 0,
    given: 0,
    got: 0,
    line_asks: 0,
    line_given: 0,
    line_got: 0,
    sent_units: 0,
    got_units: 0,
    sleeps: 0,
    wakes: 0,
};

fn is_awake<P: Program, B: Bag<P>>(bag: &B) -> bool
    ensures { result ≡ has_items (B.items bag.now) }
{
    bag.len() > 0
}

fn phase_of(awake: bool) -> Phase
    ensures { result ≡ first_phase awake }
{
    if awake { Phase::Working } else { Phase::Asleep }
}

fn credit_of(awake: bool) -> Credit
    ensures { result ≡ first_credit awake }
{
    if awake { Credit::One } else { Credit::Zero }
}

/// The first random victim, which is drawn only where there is another place.
fn first_victim(words: &mut Pcg32, places: u32, place: u32) -> u32
    requires { place < places }
    ensures { FirstVictim places place words.old words.new result }
{
    if places > 1 {
        victim(words.next_word(), places, place)
    } else {
        0
    }
}

fn set_state(line: &mut OutEdge, edge: Edge)
    ensures { line.new ≡ with_state edge line.old }
{
    line.edge = edge;
}

/// In which state the lines of a place begin.
fn edge_of(awake: bool) -> Edge
    ensures { result ≡ first_known awake }
{
    if awake { Edge::Idle } else { Edge::Refused }
}

/// Notes the state in which the lines of a place begin.
fn note_first(outs: &mut Vec<OutEdge>, awake: bool)
    ensures { outs.new.items ≡ map (with_state (first_known awake)) outs.old.items }
{
    let edge = edge_of(awake);
    for line in outs.iter_mut() {
        set_state(line, edge);
    }
}

fn tries_of(params: &Params) -> u32
    ensures { result ≡ spec_tries_of params.now }
{
    if params.places == 1 { 0 } else { params.tries }
}

/// What a place holds at the start.
pub(crate) fn first_holding<P: Program, B: Bag<P>, F: Fabric<P, B>>(
    number: u32,
    params: &Params,
    seen: Seen,
    bag: B,
    fabric: F,
) -> Holding<B, F, P::Value>
    requires first { IsFirst (F.kept fabric).lines params.now number (B.items bag) (F.kept fabric) }
    requires cube { IsCube (F.kept fabric).lines }
    requires limits { IsWithinLimits params.now }
    requires places { params.now.places ≡ (F.kept fabric).lines.places }
    requires number { number < params.now.places }
    requires seen { sight seen ≡ first_sight (F.kept fabric).lines number }
    requires fits { B.fits bag (F.program fabric) }
    ensures stands { Stands B.items B.fits P.value P.Value.unit P.Value.combine F.program F.kept
        result }
    ensures fabric { result.fabric ≡ fabric }
    ensures bag { result.bag ≡ bag }
    ensures spare { result.spare ≡ None }
    ensures value { result.value ≡ P.Value.unit }
{
    let awake = is_awake::<P, B>(&bag);
    let mut seen = seen;
    note_first(&mut seen.outs, awake);
    let mut words = Pcg32::new(params.seed, u64::from(number));
    let victim = first_victim(&mut words, params.places, number);
    let state = PlaceState {
        place: number,
        phase: phase_of(awake),
        credit: credit_of(awake),
        tries: tries_of(params),
        victim,
        size: bag.len(),
    };
    Holding {
        params: *params,
        fabric,
        bag,
        spare: None,
        value: P::Value::unit(),
        state,
        seen,
        first: 0,
        words,
        counters: NO_COUNTERS,
    }
}
