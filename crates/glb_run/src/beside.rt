//! Plays places side by side, each on a thread of its own, or by turns where there are too few
//! threads: a place that waits for one that is not played would wait for ever.
ghost use Rattle.std.specs.Prelude.{◌≡◌, ◌≢◌, ℕ, ◌<◌, None, length, get_or, true, All};
ghost use Rattle.glb_place.specs.Calls.{SameObject};

use crossbeam_utils::Backoff;
use glb_laws::{Bag, Program};
use glb_place::{Fabric, Place, Turn};
use std::sync::Wait;
use std::sync::atomic::{AtomicBool, AtomicU64, Ordering};
use std::thread;
use std::thread::Threads;

/// How often a place polls until it takes it that the others will not begin: about a second.
const PATIENCE: u64 = 1 << 20;

/// What places know of each other that are to be played at the same time.
#[derive(Drop)]
pub(crate) struct Muster {
    /// How many there are.
    places: u64,
    begun: AtomicU64,
    /// Whether one of them took it that others will not begin, and stopped.
    short: AtomicBool,
}

impl Muster {
    /// Before any of so many places is played.
    pub(crate) fn new(places: u64) -> Muster {
        Muster {
            places,
            begun: AtomicU64::new(0),
            short: AtomicBool::new(false),
        }
    }

    /// Whether a place that polled so often has to stop.
    fn is_short(&self, polls: u64) -> bool {
        if polls >= PATIENCE && self.begun.load(Ordering::SeqCst) < self.places {
            self.short.store(true, Ordering::SeqCst);
        }
        self.short.load(Ordering::SeqCst)
    }
}

/// Plays a place until it has ended, or others are not played beside it.
fn work_beside<P: Program, B: Bag<P>, F: Fabric<P, B>>(
    rt: &impl Wait,
    program: &P,
    place: &mut Place<P, B, F>,
    muster: &Muster,
)
    requires program { program.now ≡ F.program place.old.fabric }
    ensures same { SameObject F.program F.home F.refuses place.old.fabric place.new.fabric }
{
    let _before = muster.begun.fetch_add(1, Ordering::SeqCst);
    let backoff = Backoff::new();
    let mut polls = 0u64;
    for _ in rt.forever() {
        match place.turn(rt, program) {
            Turn::Closed(_) => return,
            Turn::Went => backoff.reset(),
            Turn::Polled => {
                if muster.is_short(polls) {
                    return;
                }
                polls = polls.saturating_add(1);
                backoff.snooze();
            }
        }
    }
}

/// Lets a place take a turn. Whether it has ended.
fn take_turn<P: Program, B: Bag<P>, F: Fabric<P, B>>(
    rt: &impl Wait,
    program: &P,
    place: &mut Place<P, B, F>,
) -> bool
    requires program { program.now ≡ F.program place.old.fabric }
    ensures ended { result ≡ true → place.new.ended ≢ None }
    ensures same { SameObject F.program F.home F.refuses place.old.fabric place.new.fabric }
{
    match place.turn(rt, program) {
        Turn::Closed(_) => true,
        Turn::Went | Turn::Polled => false,
    }
}

/// Lets each place take a turn. Whether all have ended.
fn take_turns<P: Program, B: Bag<P>, F: Fabric<P, B>>(
    rt: &impl Wait,
    program: &P,
    places: &mut [Place<P, B, F>],
) -> bool
    requires programs { All (λ p. program.now ≡ F.program p.fabric) places.old }
    ensures ended { result ≡ true → All (λ p. p.ended ≢ None) places.new }
    ensures same { (i : ℕ) (d : _) → i < length places.old
        → SameObject F.program F.home F.refuses (get_or places.old i d).fabric
        (get_or places.new i d).fabric }
{
    let mut ended = true;
    for place in places.iter_mut() {
        let has_ended = take_turn(rt, program, place);
        ended = ended && has_ended;
    }
    ended
}

/// Plays the places by turns until all have ended.
fn end_by_turns<P: Program, B: Bag<P>, F: Fabric<P, B>>(
    rt: &impl Wait,
    program: &P,
    places: &mut [Place<P, B, F>],
)
    requires programs { All (λ p. program.now ≡ F.program p.fabric) places.old }
    ensures ended { All (λ p. p.ended ≢ None) places.new }
    ensures same { (i : ℕ) (d : _) → i < length places.old
        → SameObject F.program F.home F.refuses (get_or places.old i d).fabric
        (get_or places.new i d).fabric }
{
    for _ in rt.forever() {
        if take_turns(rt, program, places) {
            return;
        }
    }
}

/// Plays each place on a thread of its own, until it has ended or others are not played beside it.
fn work_each<
    R: Threads + Wait + Sync,
    P: Program<Item: Send + Sync, Value: Send + Sync> + Sync,
    B: Bag<P> + Send,
    F: Fabric<P, B> + Send,
>(rt: &R, program: &P, places: &mut [Place<P, B, F>], muster: &Muster)
    requires some { 0 < length places.old }
    requires programs { All (λ p. program.now ≡ F.program p.fabric) places.old }
    ensures { (i : ℕ) (d : _) → i < length places.old
        → SameObject F.program F.home F.refuses (get_or places.old i d).fabric
        (get_or places.new i d).fabric }
{
    let threads = places.len();
    thread::for_each_mut(
        rt,
        places,
        threads,
        &|_, place| {
            work_beside(rt, program, place, muster);
        },
    );
}

/// Plays all places to their ends, side by side where there is a thread for each, and else by
/// turns.
pub(crate) fn work_all<
    R: Threads + Wait + Sync,
    P: Program<Item: Send + Sync, Value: Send + Sync> + Sync,
    B: Bag<P> + Send,
    F: Fabric<P, B> + Send,
>(rt: &R, program: &P, places: &mut [Place<P, B, F>], muster: &Muster)
    requires some { 0 < length places.old }
    requires programs { All (λ p. program.now ≡ F.program p.fabric) places.old }
    ensures ended { All (λ p. p.ended ≢ None) places.new }
    ensures same { (i : ℕ) (d : _) → i < length places.old
        → SameObject F.program F.home F.refuses (get_or places.old i d).fabric
        (get_or places.new i d).fabric }
{
    work_each(rt, program, places, muster);
    end_by_turns(rt, program, places);
}
