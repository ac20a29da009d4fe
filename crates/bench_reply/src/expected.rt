//! Which replies are right.
ghost use Rattle.std.specs.Prelude.{◌≡◌, Bool, Decides};
ghost use Rattle.bench_reply.specs.Kept.{IsExpected};
ghost use Rattle.bench_reply.specs.Replies.{HasHeadOf, IsReplyTo, Wanted};

use crate::compared::Compared;
use crate::message::read_answered;
use bench_history::Digits;
use omci_msg::{Action, Reply, Request};

/// The reply that a request is to get.
#[derive(Clone, Copy)]
pub struct Expected {
    /// What the model replies.
    pub reply: Reply,
    /// What of its contents is compared.
    pub compared: Compared,
}

impl Expected {
    ghost use Rattle.bench_reply.specs.Kept.{IsExpected};

    /// The model's reply to a request, of which everything is compared; with `modelled`, only what a model determines: of the replies
    /// to a MIB reset, and to a Create, Delete, Set, Get and Get next on class 130, 171, 266 or 268, the contents without the values
    /// of read-only attributes and without what is read of the table.
    pub fn of(modelled: bool, request: &Request, reply: Reply) -> Self
        ensures { IsExpected modelled (record { request = request.now; reply = reply }) result }
    {
        Expected {
            reply,
            compared: Compared::of(modelled, request, &reply),
        }
    }
}

/// Whether two actions are the same.
fn is_same_action(one: Action, other: Action) -> bool
    ensures { Decides result (one ≡ other) }
{
    one.code() == other.code()
}

/// Whether one reply has the identifier, action, class and instance of another.
fn is_head_same(one: &Reply, other: &Reply) -> bool
    ensures { Decides result ((one.now.tci ≡ other.now.tci) × (one.now.action ≡ other.now.action)
        × (one.now.class ≡ other.now.class) × (one.now.instance ≡ other.now.instance)) }
{
    if !is_same_action(one.action, other.action) {
        return false;
    }
    if one.tci != other.tci {
        return false;
    }
    one.class == other.class && one.instance == other.instance
}

/// Whether bytes are spelled as a reply with the identifier, action, class and instance of another.
pub fn has_head_of(model: &Reply, reply: &Digits<'_>) -> bool
    ensures { Decides result (HasHeadOf model.now reply.now) }
{
    match read_answered(reply) {
        Some(seen) => is_head_same(&seen, model),
        None => false,
    }
}

/// Whether bytes are a right reply to a request. The trailer isn't looked at, and of the contents only what is compared.
pub fn is_reply_to(expected: &Expected, reply: &Digits<'_>) -> bool
    ensures { (modelled : Bool) (wanted : Wanted) → IsExpected modelled wanted expected.now
        → Decides result (IsReplyTo modelled wanted reply.now) }
{
    let Some(seen) = read_answered(reply) else {
        return false;
    };
    is_head_same(&seen, &expected.reply)
        && expected
            .compared
            .agree(&seen.contents, &expected.reply.contents)
}
