//! The line that tells of a refusal. It takes no memory.
ghost use Rattle.std.specs.Prelude.{◌≡◌, ◌+◌, ◌^◌, ◌<◌, ◌≤◌, ◌++◌, length, decimal};
ghost use Rattle.arrayvec.specs.ArrayString.{array_string_len};
ghost use Rattle.glb_run.specs.FaultText.{word_kind_text, graph_kind_text, fault_told, fault_text};

use super::status::{GraphKind, Status};
use arrayvec::ArrayString;
use glb_words::WordKind;
use itoa::Buffer;

/// Room for the longest line.
type Line = ArrayString<64>;

fn word_kind_name(kind: WordKind) -> &'static str
    ensures name { result.now ≡ word_kind_text kind }
    ensures short { length result.now ≤ 19 }
{
    match kind {
        WordKind::Missing => "missing",
        WordKind::UnknownJob => "unknown job",
        WordKind::NotNumber => "not a number",
        WordKind::OutOfRange => "out of range",
        WordKind::UnknownOption => "unknown option",
        WordKind::Repeated => "repeated",
        WordKind::BadChoice => "bad choice",
        WordKind::Calm => "threads not allowed",
    }
}

fn graph_kind_name(kind: GraphKind) -> &'static str
    ensures name { result.now ≡ graph_kind_text kind }
    ensures short { length result.now ≤ 9 }
{
    match kind {
        GraphKind::BadLine => "bad line",
        GraphKind::TooLarge => "too large",
        GraphKind::BadEnd => "bad end",
    }
}

/// A text, a number, and a text.
fn push_around(line: &mut Line, before: &str, number: u64, after: &str)
    requires { array_string_len line.old + length before.now + length after.now + 20 ≤ 64 }
    ensures text { line.new.bytes ≡ line.old.bytes ++ before.now ++ decimal number ++ after.now }
    ensures len { array_string_len line.new
        ≤ array_string_len line.old + length before.now + length after.now + 20 }
{
    let mut buffer = Buffer::new();
    let digits = buffer.format(number);
    line.push_str(before);
    line.push_str(digits);
    line.push_str(after);
}

/// The line that tells of a refusal; `limit` is the order's limit on items.
pub(crate) fn fault_line(limit: u64, status: Status) -> Line
    ensures { result.bytes ≡ fault_text limit status }
{
    let mut line = Line::new();
    line.push_str("glb: ");
    match status {
        Status::Done => {}
        Status::BadWords { kind, word } => {
            push_around(&mut line, "word ", u64::from(word), ": ");
            line.push_str(word_kind_name(kind));
        }
        Status::ReadFault => line.push_str("read fault"),
        Status::TooLong => line.push_str("input longer than 16777216 bytes"),
        Status::BadGraph { kind, line: number } => {
            push_around(&mut line, "line ", number, ": ");
            line.push_str(graph_kind_name(kind));
        }
        Status::TooMany { .. } => push_around(&mut line, "more than ", limit, " items"),
        Status::WriteFault { .. } => line.push_str("write fault"),
        Status::NoMemory => line.push_str("out of memory"),
        Status::BadKnap { kind, line: number } => {
            push_around(&mut line, "line ", number, ": ");
            line.push_str(graph_kind_name(kind));
        }
    }
    line.push_str("\n");
    line
}
