//! Why bytes are no request, or no reply.

use std::fmt;

/// What is wrong with the bytes of a message. Where several things are, it is the one that stands
/// first here.
#[derive(Clone, Copy, Debug, PartialEq, Eq)]
pub enum MsgFault {
    /// There are neither 48 bytes nor 44, a message without its last four.
    Length(usize),
    /// The destination bit is 1 (bit 8 of the message type; ITU-T G.988, clause 11.2).
    Destination,
    /// The bit AK is 1, where a request is read: this is an answer.
    NotRequest,
    /// The bit AR isn't 0 or the bit AK isn't 1, where a reply is read.
    NotReply,
    /// The device identifier isn't that of the baseline message set (clause 11.2).
    Device(u8),
}

impl MsgFault {
    ghost use Rattle.std.specs.Prelude.{◌≡◌};
    ghost use Rattle.omci_msg.specs.Fault.{number_of_fault};

    /// The numbers of the faults that bytes read as a request can have, ascending.
    pub const OF_REQUESTS: [u8; 4] = [1, 2, 3, 4];

    /// What is wrong, without the number of bytes or the identifier that was found.
    pub fn words(self) -> &'static str {
        match self {
            MsgFault::Length(_) => "the message has neither 48 bytes nor 44",
            MsgFault::Destination => "the destination bit is 1, expected 0",
            MsgFault::NotRequest => "the acknowledgement bit is 1, expected 0 of a request",
            MsgFault::NotReply => {
                "the acknowledgement request bit is 1 or the acknowledgement bit 0, expected 0 and 1 of a reply"
            }
            MsgFault::Device(_) => "the device identifier isn't 10",
        }
    }

    /// What is wrong with bytes read as a request, by the number of the fault; None where no such fault has the number.
    pub fn words_of(number: u8) -> Option<&'static str> {
        match number {
            1 => Some(MsgFault::Length(0).words()),
            2 => Some(MsgFault::Destination.words()),
            3 => Some(MsgFault::NotRequest.words()),
            4 => Some(MsgFault::Device(0).words()),
            _ => None,
        }
    }

    /// The number under which the fault is reported.
    pub fn code(self) -> u8
        ensures { result ≡ number_of_fault self }
    {
        match self {
            MsgFault::Length(_) => 1,
            MsgFault::Destination => 2,
            MsgFault::NotRequest => 3,
            MsgFault::NotReply => 5,
            MsgFault::Device(_) => 4,
        }
    }
}

impl fmt::Display for MsgFault {
    fn fmt<W: fmt::Write>(&self, f: &mut fmt::Formatter<W>) -> fmt::Result {
        f.write_str(self.words())?;
        match self {
            MsgFault::Length(len) => write!(f, ", but {len}"),
            MsgFault::Device(identifier) => write!(f, ", but {identifier}"),
            _ => Ok(()),
        }
    }
}

impl std::error::Error for MsgFault {}
