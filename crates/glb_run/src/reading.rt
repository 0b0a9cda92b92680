//! Reads a source to its end.
ghost use Rattle.std.specs.Prelude.{◌≡◌, ◌≤◌, ◌<◌, length, IfOk, IfErr};
ghost use Rattle.glb_run.specs.Streams.{change, ReadsAll};
ghost use Rattle.glb_run.specs.inner.Stops.{StopsReading};

use glb_io::Source;
use std::alloc::Global;

/// Why a source was not read to its end.
#[derive(Clone, Copy, Debug, PartialEq, Eq)]
pub(crate) enum ReadStop {
    Fault,
    TooLong,
    NoMemory,
}

/// The most bytes of an input.
const INPUT_LIMIT: usize = 16777216;

/// The most bytes of one read.
const PIECE: usize = 8192;

/// All bytes of the source, up to the first read that gives none.
pub(crate) fn read_all<S: Source>(alloc: Global, source: &mut S) -> Result<Vec<u8>, ReadStop>
    ensures read { IfOk result (λ input. ReadsAll input.items
        (change S.left S.faults source.old source.new)) }
    ensures stop { IfErr result (λ e. StopsReading e
        (change S.left S.faults source.old source.new)) }
{
    let mut piece = [0; PIECE];
    let mut input = Vec::new(alloc);
    loop {
        match source.read(&mut piece) {
            Ok(0) => return Ok(input),
            Ok(count) => {
                if input.extend_from_slice(&piece[..count]).is_err() {
                    return Err(ReadStop::NoMemory);
                }
                if input.len() > INPUT_LIMIT {
                    return Err(ReadStop::TooLong);
                }
            }
            Err(_) => return Err(ReadStop::Fault),
        }
    }
}
