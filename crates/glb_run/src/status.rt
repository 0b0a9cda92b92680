//! How a call of the program ends.
ghost use Rattle.std.specs.Prelude.{◌≡◌};
ghost use Rattle.glb_run.specs.Codes.{code_of};

use glb_words::WordKind;

/// What is wrong with the text of a graph or a knapsack.
#[derive(Clone, Copy, Debug, PartialEq, Eq)]
pub enum GraphKind {
    BadLine,
    TooLarge,
    BadEnd,
}

/// How a call of the program ended.
#[derive(Clone, Copy, Debug, PartialEq, Eq)]
pub enum Status {
    /// The whole report was taken.
    Done,
    BadWords { kind: WordKind, word: u32 },
    ReadFault,
    TooLong,
    BadGraph { kind: GraphKind, line: u64 },
    /// The job's tree has more items than the limit; so many were expanded.
    TooMany { items: u64 },
    /// So many bytes of the report were taken.
    WriteFault { taken: usize },
    NoMemory,
    BadKnap { kind: GraphKind, line: u64 },
}

impl Status {
    /// The exit status of the program.
    pub fn code(&self) -> u8
        ensures { result ≡ code_of self.now }
    {
        match self {
            Status::Done => 0,
            Status::BadWords { .. } => 2,
            Status::ReadFault => 3,
            Status::TooLong => 4,
            Status::BadGraph { .. } => 5,
            Status::TooMany { .. } => 6,
            Status::WriteFault { .. } => 7,
            Status::NoMemory => 8,
            Status::BadKnap { .. } => 9,
        }
    }
}
