//! What a message asks.

use crate::action::Action;
use crate::reply::Reply;

/// What a message asks: its fields, without the trailer.
#[derive(Clone, Copy, Debug, PartialEq, Eq)]
pub struct Request {
    /// The transaction correlation identifier.
    pub tci: u16,
    pub action: Action,
    /// Whether an answer is asked for (the bit AR).
    pub wants_answer: bool,
    /// The number of the managed entity's class.
    pub class: u16,
    /// The number of the instance within its class.
    pub instance: u16,
    pub contents: [u8; 32],
}

impl Request {
    ghost use Rattle.std.specs.Prelude.{◌≡◌};
    ghost use Rattle.omci_msg.specs.Replies.{reply_to, wanted_reply};

    /// The reply to the request, with these contents (ITU-T G.988, clause 11.2): its other fields are the request's.
    pub fn reply_with(&self, contents: [u8; 32]) -> Reply
        ensures { result ≡ reply_to self.now contents }
    {
        Reply {
            tci: self.tci,
            action: self.action,
            class: self.class,
            instance: self.instance,
            contents,
        }
    }

    /// A reply to the request, or None where it wants no answer.
    pub fn wanted_reply(&self, reply: Reply) -> Option<Reply>
        ensures { result ≡ wanted_reply self.now reply }
    {
        if self.wants_answer { Some(reply) } else { None }
    }
}
