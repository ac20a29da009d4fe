//! Requests whose reply has something in common with a reply that was seen.
ghost use Rattle.std.specs.Prelude.{◌≡◌, ◌==◌, Bool, List, drop, take};
ghost use Rattle.std.specs.List.{list_any, position_from};
ghost use Rattle.bench_reply.specs.Replies.{Wanted, has_head, is_reply};
ghost use Rattle.bench_answers.specs.Kept.{AreExpected};

use bench_history::Digits;
use bench_reply::{Expected, has_head_of, is_reply_to};

/// The first from a number on for which a reply is right.
pub(crate) fn first_right(expected: &[Expected], from: usize, reply: &Digits<'_>) -> Option<usize>
    ensures { (modelled : Bool) (requests : List Wanted)
        → AreExpected modelled requests expected.now
        → result ≡ position_from (λ w. is_reply modelled w reply.now)
        from (drop from requests) }
{
    for number in from..expected.len() {
        if is_reply_to(&expected[number], reply) {
            return Some(number);
        }
    }
    None
}

/// The first from a number on that has the head of a reply.
pub(crate) fn first_with_head(
    expected: &[Expected],
    from: usize,
    reply: &Digits<'_>,
) -> Option<usize>
    ensures { (modelled : Bool) (requests : List Wanted)
        → AreExpected modelled requests expected.now
        → result ≡ position_from (λ w. has_head w.reply reply.now) from (drop from requests) }
{
    for number in from..expected.len() {
        if has_head_of(&expected[number].reply, reply) {
            return Some(number);
        }
    }
    None
}

/// Whether one of the first so many has the head of a reply.
pub(crate) fn has_one_head(expected: &[Expected], count: usize, reply: &Digits<'_>) -> bool
    ensures { (modelled : Bool) (requests : List Wanted)
        → AreExpected modelled requests expected.now
        → result ≡ list_any (λ w. has_head w.reply reply.now) (take count requests) }
{
    for number in 0..count.min(expected.len()) {
        if has_head_of(&expected[number].reply, reply) {
            return true;
        }
    }
    false
}

/// Whether one from a number on has an identifier.
pub(crate) fn has_identifier(expected: &[Expected], from: usize, tci: u16) -> bool
    ensures { (modelled : Bool) (requests : List Wanted)
        → AreExpected modelled requests expected.now
        → result ≡ list_any (λ w. w.reply.tci == tci) (drop from requests) }
{
    for number in from..expected.len() {
        if expected[number].reply.tci == tci {
            return true;
        }
    }
    false
}
