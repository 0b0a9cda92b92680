//! The command `glb`: its words, standard input and output, and its exit status.
#![tactic(auto)]

use glb_io::{StdSink, StdSource};
use glb_run::{NoGate, top};
use std::env;
use std::io::ErrorKind;
use std::process::ExitCode;

/// The exit status of faulty words.
const BAD_WORDS: u8 = 2;

/// The exit status of want of memory.
const NO_MEMORY: u8 = 8;

fn main(rt: HostRuntime) -> ExitCode {
    let alloc = rt.alloc();
    let args = match env::args(&rt) {
        Ok(args) => args,
        Err(error) if error.kind() == ErrorKind::OutOfMemory => {
            return ExitCode::from(NO_MEMORY);
        }
        Err(_) => return ExitCode::from(BAD_WORDS),
    };
    let Ok(words) = args
        .skip(1)
        .take(u32::MAX as usize)
        .collect::<Vec<String>>(alloc)
    else {
        return ExitCode::from(NO_MEMORY);
    };
    let mut source = StdSource::new(rt.stdin());
    let mut out = StdSink::new(rt.stdout());
    let mut err = StdSink::new(rt.stderr());
    let status = top(&rt, alloc, &words, &mut source, &mut out, &mut err, &NoGate);
    ExitCode::from(status.code())
}
