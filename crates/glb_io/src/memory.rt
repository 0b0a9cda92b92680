//! Sources and sinks over memory, for tests and for callers that have their bytes at hand.
ghost use Rattle.std.specs.Prelude.{◌≡◌, ◌+◌, ◌-◌, ◌^◌, ◌<◌, ◌≤◌, ◌⊎◌, min, ⊤};
ghost use Rattle.std.specs.Prelude.{◌++◌, [], length, take, drop, vec_len, Contains};
ghost use Rattle.std.specs.Prelude.{Some, None, IsSome, IfOk, IfErr, OnOk, OnErr};
ghost use Rattle.glb_io.specs.Bytes.{Takes, Gives, NoneLeft};
ghost use Rattle.glb_io.specs.Faults.{Rose};
ghost use Rattle.glb_io.specs.Scripts.{ScriptedSource, ScriptedSink};
ghost use Rattle.glb_io.specs.Scripts.{plan_at, planned, taken_of, after_call};

use super::sink::Sink;
use super::source::{Failed, Source};
use std::marker::Model;

/// Copies at most `most` bytes from the front of `from` to that of `into`, and answers how many.
fn copy_front(from: &[u8], most: usize, into: &mut [u8]) -> usize
    ensures count { result ≡ min (min most (length into.new)) (length from.now) }
    ensures bytes { take result into.new ≡ take result from.now }
{
    let count = most.min(into.len()).min(from.len());
    into[..count].copy_from_slice(&from[..count]);
    count
}

/// Writes the first `count` bytes of `piece` behind the first `used` of `room`.
fn put_behind(room: &mut [u8], used: usize, piece: &[u8], count: usize)
    requires room { used + count ≤ length room.old }
    requires piece { count ≤ length piece.now }
    ensures { take (used + count) room.new ≡ take used room.old ++ take count piece.now }
{
    let (front, rest) = room.split_at_mut(used);
    let _used = front.len();
    rest[..count].copy_from_slice(&piece[..count]);
}

/// What the call of this number is to take before it fails, if it is to fail.
fn plan_of(fail: &[(u64, usize)], call: u64) -> Option<usize>
    ensures { result ≡ plan_at fail.now call }
{
    fail.iter().find(|f| f.0 == call).map(|f| f.1)
}

/// How many of `size` bytes a call takes.
fn count_of(plan: Option<usize>, size: usize, room: usize) -> usize
    ensures { result ≡ taken_of plan size room }
{
    match plan {
        Some(most) => most.min(size).min(room),
        None => size.min(room),
    }
}

/// Bytes that come in pieces of at most `step`, with calls that fail.
#[derive(Drop)]
pub struct MemSource {
    bytes: Vec<u8>,
    at: usize,
    step: usize,
    fail: Vec<u64>,
    calls: u64,
    faults: u64,
}

impl Model for MemSource {
    ghost Value = { ScriptedSource };

    ghost view = { λ s. record {
      left = drop s.at s.bytes.items;
      step = s.step;
      fail = s.fail.items;
      calls = s.calls;
      faults = s.faults;
    } };

    ghost invariant = { λ s. (s.at ≤ vec_len s.bytes) × (1 ≤ s.step) };
}

impl MemSource {
    /// The calls whose numbers stand in `fail` answer `Failed`; the first call has number 0.
    pub fn new(bytes: Vec<u8>, step: usize, fail: Vec<u64>) -> MemSource
        requires { 1 ≤ step }
        ensures { result ≡ record {
          left = bytes.items;
          step = step;
          fail = fail.items;
          calls = 0;
          faults = 0;
        } }
    {
        MemSource {
            bytes,
            at: 0,
            step,
            fail,
            calls: 0,
            faults: 0,
        }
    }
}

impl Source for MemSource {
    ghost left = { λ s. Some s.left };

    ghost faults = { λ s. s.faults };

    fn read(&mut self, into: &mut [u8]) -> Result<usize, Failed>
        ensures within { IfOk result (λ k. k ≤ length into.new) }
        ensures taken { IfOk result (λ k. self.old.left ≡ take k into.new ++ self.new.left) }
        ensures end { IfOk result (λ k. k ≡ 0 → 0 < length into.new → self.new.left ≡ []) }
        ensures stays { OnErr result (self.new.left ≡ self.old.left) }
        ensures later { self.old.faults ≤ self.new.faults }
        ensures cause { OnErr result (Rose self.old.faults self.new.faults) }
        ensures no_fault { OnOk result (self.new.faults ≡ self.old.faults) }
        ensures named { OnErr result (Contains self.old.fail self.old.calls) }
        ensures not_named { OnOk result (Contains self.old.fail self.old.calls → ⊥) }
        ensures step { IfOk result (λ k. k ≤ self.old.step) }
        ensures counted { self.new.calls ≡ min (self.old.calls + 1) (2 ^ 64 - 1) }
        ensures script { (self.new.step ≡ self.old.step) × (self.new.fail ≡ self.old.fail) }
    {
        let call = self.calls;
        self.calls = call.saturating_add(1);
        if self.fail.contains(&call) {
            self.faults = self.faults.saturating_add(1);
            return Err(Failed);
        }
        let count = copy_front(&self.bytes[self.at..], self.step, into);
        self.at += count;
        Ok(count)
    }
}

/// Bytes that come whole, and never fail.
#[derive(Drop)]
pub struct CalmSource {
    bytes: Vec<u8>,
    at: usize,
    ghost within: { at ≤ vec_len bytes },
}

impl CalmSource {
    /// A read gives as many bytes as fit.
    pub fn new(bytes: Vec<u8>) -> CalmSource
        ensures { ⟦<CalmSource as Source>⟧.left result ≡ Some bytes.items }
    {
        CalmSource { bytes, at: 0 }
    }
}

impl Source for CalmSource {
    ghost left = { λ s. Some (drop s.at s.bytes.items) };

    ghost faults = { λ _. 0 };

    fn read(&mut self, into: &mut [u8]) -> Result<usize, Failed> {
        let count = copy_front(&self.bytes[self.at..], into.len(), into);
        self.at += count;
        Ok(count)
    }
}

/// Takes everything and tells nothing.
#[derive(Clone, Copy, Debug)]
pub struct NullSink;

impl Sink for NullSink {
    ghost taken = { λ _. None };

    ghost faults = { λ _. 0 };

    ghost one_call = { λ _ _ _. ⊤ };

    fn write_all(&mut self, _piece: &[u8]) -> Result<(), (Failed, usize)> {
        Ok(())
    }
}

/// Keeps what it takes in room that it was given, with calls that fail. It takes no memory.
#[derive(Drop)]
pub struct MemSink {
    fail: Vec<(u64, usize)>,
    room: Vec<u8>,
    used: usize,
    calls: u64,
    faults: u64,
}

impl Model for MemSink {
    ghost Value = { ScriptedSink };

    ghost view = { λ s. record {
      taken = take s.used s.room.items;
      room = vec_len s.room - s.used;
      fail = s.fail.items;
      calls = s.calls;
      faults = s.faults;
    } };

    ghost invariant = { λ s. s.used ≤ vec_len s.room };
}

impl MemSink {
    /// The calls whose numbers are first members fail after taking as many bytes as the second
    /// members say; the first call has number 0. `room` is written over from the front.
    pub fn new(fail: Vec<(u64, usize)>, room: Vec<u8>) -> MemSink
        ensures { result ≡ record {
          taken = [];
          room = length room.items;
          fail = fail.items;
          calls = 0;
          faults = 0;
        } }
    {
        MemSink {
            fail,
            room,
            used: 0,
            calls: 0,
            faults: 0,
        }
    }

    /// What it took.
    pub fn bytes(&self) -> &[u8]
        ensures { result.now ≡ self.now.taken }
    {
        &self.room[..self.used]
    }
}

impl Sink for MemSink {
    ghost taken = { λ s. Some s.taken };

    ghost faults = { λ s. s.faults };

    ghost one_call = { λ s piece t. t ≡ after_call s piece };

    fn write_all(&mut self, piece: &[u8]) -> Result<(), (Failed, usize)>
        ensures whole { OnOk result (self.new.taken ≡ self.old.taken ++ piece.now) }
        ensures part { IfErr result (λ e. self.new.taken ≡ self.old.taken ++ take e.1 piece.now) }
        ensures within { IfErr result (λ e. e.1 ≤ length piece.now) }
        ensures later { self.old.faults ≤ self.new.faults }
        ensures cause { OnErr result (Rose self.old.faults self.new.faults) }
        ensures no_fault { OnOk result (self.new.faults ≡ self.old.faults) }
        ensures called { self.new ≡ after_call self.old piece.now }
        ensures room_ok { OnOk result (self.new.room ≡ self.old.room - length piece.now) }
        ensures room_err { IfErr result (λ e. self.new.room ≡ self.old.room - e.1) }
        ensures calm { OnOk result (
            (planned self.old ≡ None) × (length piece.now ≤ self.old.room)) }
        ensures fails { OnErr result (
            IsSome (planned self.old) ⊎ (self.old.room < length piece.now)) }
        ensures count { IfErr result (λ e.
            e.1 ≡ taken_of (planned self.old) (length piece.now) self.old.room) }
        ensures counted { self.new.calls ≡ min (self.old.calls + 1) (2 ^ 64 - 1) }
        ensures script { self.new.fail ≡ self.old.fail }
    {
        let call = self.calls;
        self.calls = call.saturating_add(1);
        let plan = plan_of(&self.fail, call);
        let count = count_of(plan, piece.len(), self.room.len() - self.used);
        put_behind(&mut self.room, self.used, piece, count);
        self.used += count;
        if plan.is_some() || count < piece.len() {
            self.faults = self.faults.saturating_add(1);
            return Err((Failed, count));
        }
        Ok(())
    }
}
