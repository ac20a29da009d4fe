//! What is left when the messages of a script were carried out.
ghost use Rattle.std.specs.Prelude.{◌≡◌};
ghost use Rattle.mib_state.specs.Step.{result_of};

use mib_state::Mib;
use omci_msg::{MsgFault, Reply, Request};

/// A request that was accepted.
#[derive(Clone, Copy)]
pub struct Accepted {
    /// The number, from 1, of its line.
    pub line: u64,
    pub request: Request,
}

/// A message that has a fault. It is passed over.
#[derive(Clone, Copy)]
pub struct Faulty {
    /// The number, from 1, of its line.
    pub line: u64,
    /// The first thing that is wrong with it.
    pub fault: MsgFault,
}

/// A request that is to change entities and was refused. It changes nothing.
#[derive(Clone, Copy)]
pub struct Refused {
    /// The number, from 1, of its line.
    pub line: u64,
    pub request: Request,
    /// What it is answered.
    pub reply: Reply,
}

impl Refused {
    /// The result of the reply, which isn't success (ITU-T G.988, annex A).
    pub fn result(&self) -> u8
        ensures { result ≡ result_of self.now.reply }
    {
        self.reply.contents[0]
    }
}

/// What is left when the messages of a script were carried out.
#[derive(Drop)]
pub struct Applied {
    /// The managed entities.
    pub mib: Mib,
    /// The requests that were accepted, in order. They alone lead to these entities.
    pub accepted: Vec<Accepted>,
    /// The messages that have a fault, in order.
    pub faulty: Vec<Faulty>,
    /// The requests that were refused, in order, of those that are to change entities.
    pub refused: Vec<Refused>,
}
