//! The answers to the lines of a script, and to messages.
ghost use Rattle.std.specs.Prelude.{◌≡◌, ◌+◌, ◌*◌, ◌≤◌, ◌<◌, ◌++◌, is_none, length, vec_len, vec_capacity};
ghost use Rattle.hex.specs.Hex.{encode_lower};
ghost use Rattle.omci_msg.specs.Message.{request_of};
ghost use Rattle.script_lines.specs.Line.{asked_by};
ghost use Rattle.script_replay.specs.Answers.{fault_line, line_answer, message_answer, reply_line};

use crate::frame::answer_frame;
use omci_msg::{MsgFault, Reply, write};
use onu_unit::Unit;
use script_digits::{are_pairs, write_digits};
use script_lines::{MOST_SPELLED, Parts, read_bytes, split_line};

/// Puts bytes behind the answers so far, for which there is room.
pub(crate) fn put(answers: &mut Vec<u8>, bytes: &[u8])
    requires { vec_len answers.old + length bytes.now ≤ vec_capacity answers.old }
    ensures items { answers.new.items ≡ answers.old.items ++ bytes.now }
    ensures len { vec_len answers.new ≡ vec_len answers.old + length bytes.now }
    ensures capacity { vec_capacity answers.old ≤ vec_capacity answers.new }
{
    let _ = answers.extend_from_slice(bytes);
}

/// Puts the hexadecimal digits of bytes behind the answers so far.
pub(crate) fn put_digits(answers: &mut Vec<u8>, bytes: &[u8])
    requires { vec_len answers.old + 2 * length bytes.now ≤ vec_capacity answers.old }
    ensures items { answers.new.items ≡ answers.old.items ++ encode_lower bytes.now }
    ensures len { vec_len answers.new ≡ vec_len answers.old + 2 * length bytes.now }
    ensures capacity { vec_capacity answers.old ≤ vec_capacity answers.new }
{
    let begun = answers.len();
    let _ = answers.resize(begun + 2 * bytes.len(), 0);
    let (_, room) = answers.as_mut_slice().split_at_mut(begun);
    write_digits(bytes, room);
}

/// Puts the line of a reply behind the answers so far.
fn put_reply(answers: &mut Vec<u8>, reply: &Reply)
    requires { vec_len answers.old + 99 ≤ vec_capacity answers.old }
    ensures items { answers.new.items ≡ answers.old.items ++ reply_line reply.now }
    ensures len { vec_len answers.new ≡ vec_len answers.old + 99 }
    ensures capacity { vec_capacity answers.old ≤ vec_capacity answers.new }
{
    let bytes = write(reply);
    put(answers, b"r ");
    put_digits(answers, bytes.as_slice());
    put(answers, b"\n");
}

/// Puts the line of a message with a fault behind the answers so far.
fn put_fault(answers: &mut Vec<u8>, fault: MsgFault)
    requires { vec_len answers.old + 4 ≤ vec_capacity answers.old }
    ensures items { answers.new.items ≡ answers.old.items ++ fault_line fault }
    ensures len { vec_len answers.new ≡ vec_len answers.old + 4 }
    ensures capacity { vec_capacity answers.old ≤ vec_capacity answers.new }
{
    put(answers, b"m ");
    put(answers, &[b'0' + fault.code(), b'\n']);
}

/// Carries a message out, and puts its answer behind those so far. There is room for twice the
/// line that spells it.
fn answer_message(onu: &mut Unit, bytes: &[u8], answers: &mut Vec<u8>)
    requires { vec_len answers.old + 4 * length bytes.now + 6 ≤ vec_capacity answers.old }
    ensures items { answers.new.items ≡ answers.old.items
        ++ (message_answer onu.old (request_of bytes.now)).0 }
    ensures onu { onu.new ≡ (message_answer onu.old (request_of bytes.now)).1 }
    ensures len { vec_len answers.new ≤ vec_len answers.old + 4 * length bytes.now + 6 }
    ensures capacity { vec_capacity answers.old ≤ vec_capacity answers.new }
{
    match onu.message(bytes) {
        Ok(Some(reply)) => put_reply(answers, &reply),
        Ok(None) => put(answers, b"-\n"),
        Err(fault) => put_fault(answers, fault),
    }
}

/// Carries out what a line asks for, and puts its answer behind those so far, for which there is
/// room for three times the line. Whether the line is bad; a bad one changes nothing.
pub fn answer_line(
    onu: &mut Unit,
    line: &[u8],
    buffer: &mut [u8; MOST_SPELLED],
    answers: &mut Vec<u8>,
) -> bool
    requires { vec_len answers.old + 3 * length line.now + 3 ≤ vec_capacity answers.old }
    ensures bad { result ≡ is_none (asked_by line.now) }
    ensures items { answers.new.items
        ≡ answers.old.items ++ (line_answer onu.old (asked_by line.now)).0 }
    ensures onu { onu.new ≡ (line_answer onu.old (asked_by line.now)).1 }
    ensures len { vec_len answers.new ≤ vec_len answers.old + 3 * length line.now + 3 }
    ensures capacity { vec_capacity answers.old ≤ vec_capacity answers.new }
{
    match split_line(line) {
        Some(Parts::Message(digits)) => {
            let Some(bytes) = read_bytes(digits, buffer) else {
                return true;
            };
            answer_message(onu, bytes, answers);
            false
        }
        Some(Parts::Frame(port, digits)) => {
            if !are_pairs(digits) {
                return true;
            }
            answer_frame(onu, port, digits, buffer, answers);
            false
        }
        Some(Parts::Nothing) => false,
        None => true,
    }
}
