//! std's readers and writers as sources and sinks. What a terminal, a file or a pipe really gives
//! or takes is trusted.
ghost use Rattle.std.specs.Prelude.{◌≡◌, ◌≤◌, ◌↔◌, true, false, IsSome, None, if◌then◌else◌};
ghost use Rattle.std.specs.IoError.{error_kind};
ghost use Rattle.glb_io.specs.Faults.{Rose, after_fault, RisesOnceAtMost};

use super::sink::Sink;
use super::source::{Failed, Source};
use std::io::{Error, ErrorKind, Read, Stderr, Stdin, Stdout, Write};

/// A reader that tells its bytes in every state or in none.
pub trait SteadyRead: Read {
    ghost steady: { (s t : Self) → IsSome (Self.remaining s) → IsSome (Self.remaining t) };
}

/// A writer that tells its bytes in every state or in none.
pub trait SteadyWrite: Write {
    ghost steady: { (s t : Self) → IsSome (Self.contents s) → IsSome (Self.contents t) };
}

impl SteadyRead for &[u8] {
    ghost steady = { λ _ _ h. h };
}

impl SteadyRead for Stdin {
    ghost steady = { λ _ _ h. h };
}

impl SteadyWrite for Stdout {
    ghost steady = { λ _ _ h. h };
}

impl SteadyWrite for Stderr {
    ghost steady = { λ _ _ h. h };
}

/// How many interruptions one call goes past.
const TRIES: u32 = 1000;

fn is_interrupted(error: &Error) -> bool
    ensures { result ≡ true ↔ error_kind error.now ≡ ErrorKind.Interrupted }
{
    error.kind() == ErrorKind::Interrupted
}

/// A source over a reader. From the first error on it tells no bytes.
#[derive(Drop)]
pub struct StdSource<R> {
    inner: R,
    silent: bool,
    faults: u64,
}

impl<R: SteadyRead + Drop> StdSource<R> {
    /// It tells the bytes that `inner` tells, until `inner` first fails.
    pub fn new(inner: R) -> StdSource<R>
        ensures told { ⟦<StdSource<R> as Source>⟧.left result ≡ R.remaining inner }
        ensures faults { ⟦<StdSource<R> as Source>⟧.faults result ≡ 0 }
    {
        StdSource {
            inner,
            silent: false,
            faults: 0,
        }
    }
}

impl<R: SteadyRead + Drop> Source for StdSource<R> {
    ghost left = { λ s. if s.silent then None else (R.remaining s.inner) };

    ghost faults = { λ s. s.faults };

    fn read(&mut self, into: &mut [u8]) -> Result<usize, Failed> {
        for _ in 0..=TRIES {
            match self.inner.read(into) {
                Ok(count) => return Ok(count),
                Err(error) => {
                    self.silent = true;
                    if !is_interrupted(&error) {
                        break;
                    }
                }
            }
        }
        self.faults = self.faults.saturating_add(1);
        Err(Failed)
    }
}

/// A sink over a writer. From the first error on it tells no bytes.
#[derive(Drop)]
pub struct StdSink<W> {
    inner: W,
    silent: bool,
    faults: u64,
}

impl<W: SteadyWrite + Drop> StdSink<W> {
    /// It tells the bytes that `inner` tells, until `inner` first fails.
    pub fn new(inner: W) -> StdSink<W>
        ensures told { ⟦<StdSink<W> as Sink>⟧.taken result ≡ W.contents inner }
        ensures faults { ⟦<StdSink<W> as Sink>⟧.faults result ≡ 0 }
    {
        StdSink {
            inner,
            silent: false,
            faults: 0,
        }
    }

    /// Counts a fault after so many bytes were taken.
    fn fault(&mut self, done: usize) -> (Failed, usize)
        ensures done { result.1 ≡ done }
        ensures inner { self.new.inner ≡ self.old.inner }
        ensures silent { self.new.silent ≡ self.old.silent }
        ensures faults { self.new.faults ≡ after_fault self.old.faults }
    {
        self.faults = self.faults.saturating_add(1);
        (Failed, done)
    }
}

impl<W: SteadyWrite + Drop> Sink for StdSink<W> {
    ghost taken = { λ s. if s.silent then None else (W.contents s.inner) };

    ghost faults = { λ s. s.faults };

    ghost one_call = { λ s _ t. RisesOnceAtMost s.faults t.faults };

    fn write_all(&mut self, piece: &[u8]) -> Result<(), (Failed, usize)> {
        let mut done = 0;
        let mut tries = 0;
        while done < piece.len() {
            match self.inner.write(&piece[done..]) {
                Ok(0) => return Err(self.fault(done)),
                Ok(count) => done += count,
                Err(error) => {
                    self.silent = true;
                    if tries == TRIES || !is_interrupted(&error) {
                        return Err(self.fault(done));
                    }
                    tries += 1;
                }
            }
        }
        Ok(())
    }
}
