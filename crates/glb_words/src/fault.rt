//! What can be wrong with the words of a command.

/// What is wrong with a word. `Calm` is threads where they are not allowed.
#[derive(Clone, Copy, Debug, PartialEq, Eq)]
pub enum WordKind {
    Missing,
    UnknownJob,
    NotNumber,
    OutOfRange,
    UnknownOption,
    Repeated,
    BadChoice,
    Calm,
}

/// A fault, and the number of its word, counted from 0. Of a word that is missing it is the count
/// of words.
#[derive(Clone, Copy, Debug, PartialEq, Eq)]
pub struct WordFault {
    pub kind: WordKind,
    pub word: u32,
}

/// Why words give no order.
#[derive(Clone, Copy, Debug, PartialEq, Eq)]
pub enum OrderFault {
    Bad(WordFault),
    NoMemory,
}
