//! The answers to frames. A frame that leaves has the digits that it came with, in lower case, but for its tags: so only its first
//! bytes are read, and no payload is spelled anew.
ghost use Rattle.std.specs.Prelude.{◌≡◌, ◌+◌, ◌*◌, ◌≤◌, ◌++◌, ℕ, List, Ok, length, vec_len, vec_capacity};
ghost use Rattle.frame_meaning.specs.Meaning.{meaning};
ghost use Rattle.hex.specs.Hex.{decode_of, encode_lower};
ghost use Rattle.script_lines.specs.Line.{line_limit};
ghost use Rattle.script_replay.specs.Answers.{dropped_line, forwarded_line, verdict_line};
ghost use Rattle.std.specs.List.{flat_map};
ghost use Rattle.tag_view.specs.Frame.{spelled};
ghost use Rattle.tag_view.specs.Tag.{tag_bytes};

use crate::answer::{put, put_digits};
use forward_plan::{OutFrame, Reason, Verdict};
use itoa::Buffer;
use onu_unit::Unit;
use script_digits::make_lower;
use script_heads::read_head;
use script_lines::MOST_SPELLED;
use tag_view::Tag;

/// Puts digits behind the answers so far, in lower case.
fn put_lower(answers: &mut Vec<u8>, digits: &[u8])
    requires { vec_len answers.old + length digits.now ≤ vec_capacity answers.old }
    ensures items { (bytes : List ℕ) → decode_of digits.now ≡ Ok bytes
        → answers.new.items ≡ answers.old.items ++ encode_lower bytes }
    ensures len { vec_len answers.new ≡ vec_len answers.old + length digits.now }
    ensures capacity { vec_capacity answers.old ≤ vec_capacity answers.new }
{
    let begun = answers.len();
    put(answers, digits);
    let (_, put) = answers.as_mut_slice().split_at_mut(begun);
    make_lower(put);
}

/// Puts the digits of tags behind the answers so far.
fn put_tags(answers: &mut Vec<u8>, tags: &[Tag])
    requires { vec_len answers.old + 8 * length tags.now ≤ vec_capacity answers.old }
    ensures items { answers.new.items ≡ answers.old.items
        ++ encode_lower (flat_map tag_bytes tags.now) }
    ensures len { vec_len answers.new ≡ vec_len answers.old + 8 * length tags.now }
    ensures capacity { vec_capacity answers.old ≤ vec_capacity answers.new }
{
    for tag in tags {
        put_digits(answers, &tag.bytes());
    }
}

/// Puts the line of a frame that leaves behind the answers so far, part by part: the frame stands
/// nowhere as a whole. Behind its tags come the bytes that the digits spell, in place of its rest.
#[tactic(auto, using(crate::proofs::Messages::frame_digits))]
fn put_forwarded(answers: &mut Vec<u8>, gem: u16, frame: &OutFrame, behind: &[u8])
    requires { vec_len answers.old + 2 * length frame.now.addresses + 8 * length frame.now.tags
        + length behind.now + 9 ≤ vec_capacity answers.old }
    ensures items { (rest : List ℕ) → decode_of behind.now ≡ Ok rest
        → answers.new.items ≡ answers.old.items
        ++ forwarded_line gem (record frame.now { rest = rest }) }
    ensures len { vec_len answers.new
        ≤ vec_len answers.old + 2 * length frame.now.addresses + 8 * length frame.now.tags
        + length behind.now + 9 }
    ensures capacity { vec_capacity answers.old ≤ vec_capacity answers.new }
{
    let mut digits = Buffer::new();
    put(answers, b"g ");
    put(answers, digits.format(gem).as_bytes());
    put(answers, b" ");
    put_digits(answers, frame.addresses());
    put_tags(answers, frame.tags());
    put_lower(answers, behind);
    put(answers, b"\n");
}

/// Puts the line of a frame that is dropped behind the answers so far.
fn put_dropped(answers: &mut Vec<u8>, reason: Reason)
    requires { vec_len answers.old + 4 ≤ vec_capacity answers.old }
    ensures items { answers.new.items ≡ answers.old.items ++ dropped_line reason }
    ensures len { vec_len answers.new ≡ vec_len answers.old + 4 }
    ensures capacity { vec_capacity answers.old ≤ vec_capacity answers.new }
{
    put(answers, b"d ");
    put(answers, &[b'0' + reason.code(), b'\n']);
}

/// Forwards the frame that digits spell, and puts what became of it behind the answers so far. There is
/// room for three times the line that spells it.
pub(crate) fn answer_frame(
    onu: &mut Unit,
    port: u16,
    digits: &[u8],
    buffer: &mut [u8; MOST_SPELLED],
    answers: &mut Vec<u8>,
)
    requires digits { (bytes : List ℕ) × (decode_of digits.now ≡ Ok bytes) }
    requires short { length digits.now ≤ line_limit }
    requires room { vec_len answers.old + 3 * length digits.now + 15 ≤ vec_capacity answers.old }
    ensures items { (bytes : List ℕ) → decode_of digits.now ≡ Ok bytes
        → answers.new.items ≡ answers.old.items
        ++ verdict_line (meaning onu.old.mib.entities port bytes) }
    ensures onu { onu.new ≡ onu.old }
    ensures len { vec_len answers.new ≤ vec_len answers.old + 3 * length digits.now + 15 }
    ensures capacity { vec_capacity answers.old ≤ vec_capacity answers.new }
{
    let head = read_head(digits, buffer);
    match onu.forward(port, head) {
        Verdict::Forward { gem, frame } => {
            let behind = digits.split_at(digits.len() - 2 * frame.rest().len()).1;
            put_forwarded(answers, gem, &frame, behind)
        }
        Verdict::Drop(reason) => put_dropped(answers, reason),
    }
}
