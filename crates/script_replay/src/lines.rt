//! The answers to the lines in a piece of a script.
ghost use Rattle.std.specs.Prelude.{◌≡◌, ◌≢◌, ◌≤◌, ◌<◌, ◌+◌, ◌*◌, ◌++◌, ℕ, Some, None, false, if◌then◌else◌, drop, length, map, slice_index, vec_len, vec_capacity};
ghost use Rattle.script_lines.specs.Line.{asked_by};
ghost use Rattle.script_lines.specs.Text.{cut};
ghost use Rattle.script_replay.specs.Answers.{answers_from, before_bad, state_from};

use crate::answer::answer_line;
use memchr::memchr;
use onu_unit::Unit;
use script_lines::MOST_SPELLED;

/// How far the lines of a piece were answered.
#[derive(Clone, Copy)]
pub struct Answered {
    /// How many lines were answered.
    pub lines: u64,
    /// Where the line behind them begins.
    pub rest: usize,
    /// Whether that line has its end in the piece too, and is bad.
    pub is_bad: bool,
}

/// Answers the lines that end in a piece, up to the first bad one. No line ends in the first
/// `searched` bytes. There is room for three times the piece.
pub fn answer_lines(
    onu: &mut Unit,
    piece: &[u8],
    searched: usize,
    buffer: &mut [u8; MOST_SPELLED],
    answers: &mut Vec<u8>,
) -> Answered
    requires within { searched ≤ length piece.now }
    requires searched { (k : ℕ) → k < searched → slice_index piece.now k ≢ 10 }
    requires room { vec_len answers.old + 3 * length piece.now ≤ vec_capacity answers.old }
    ensures bad { before_bad (map asked_by (cut piece.now).ended)
        ≡ (if result.is_bad then Some result.lines else None) }
    ensures lines { result.is_bad ≡ false → result.lines ≡ length (cut piece.now).ended }
    ensures within { result.rest ≤ length piece.now }
    ensures rest { result.is_bad ≡ false → drop result.rest piece.now ≡ (cut piece.now).rest }
    ensures few { result.lines ≤ length piece.now }
    ensures items { answers.new.items ≡ answers.old.items
        ++ answers_from onu.old (map asked_by (cut piece.now).ended) }
    ensures onu { onu.new ≡ state_from onu.old (map asked_by (cut piece.now).ended) }
    ensures capacity { vec_capacity answers.old ≤ vec_capacity answers.new }
{
    let mut lines = 0;
    let mut start = 0;
    let mut from = searched;
    while let Some(offset) = memchr(b'\n', piece.split_at(from).1) {
        let end = from + offset;
        if answer_line(onu, &piece[start..end], buffer, answers) {
            return Answered {
                lines,
                rest: start,
                is_bad: true,
            };
        }
        lines += 1;
        start = end + 1;
        from = start;
    }
    Answered {
        lines,
        rest: start,
        is_bad: false,
    }
}
