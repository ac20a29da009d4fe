//! Messages of the management channel.
ghost use Rattle.std.specs.Prelude.{◌≡◌, ◌≤◌, IfSome, length, option_map};
ghost use Rattle.omci_msg.specs.Message.{acknowledges, type_of};
ghost use Rattle.bench_record.specs.Messages.{is_managing, message_of};

use byteorder::{BigEndian, ByteOrder};

/// The Ethertype of the management channel's frames.
const OMCI_ETHERTYPE: u16 = 0x88b5;

/// A message's bytes, the trailer among them.
const WHOLE: usize = 48;

/// A message's bytes without the last four of its trailer.
const WITHOUT_CHECK: usize = 44;

/// Whether a frame is of the management channel by its type.
pub(crate) fn is_managing(frame: &[u8]) -> bool
    ensures { result ≡ is_managing frame.now }
{
    frame.len() >= 14 && BigEndian::read_u16(frame.split_at(12).1) == OMCI_ETHERTYPE
}

/// The message that a frame holds, without what pads the frame. None where it is shorter than a message, or of another Ethertype.
pub(crate) fn read_message(frame: &[u8]) -> Option<&[u8]>
    ensures message { option_map (λ (message : _). message.now) result ≡ message_of frame.now }
    ensures long { IfSome result (λ message. 44 ≤ length message.now) }
{
    if frame.len() < 14 + WITHOUT_CHECK
        || BigEndian::read_u16(frame.split_at(12).1) != OMCI_ETHERTYPE
    {
        return None;
    }
    let (_, behind) = frame.split_at(14);
    let len = if behind.len() >= WHOLE {
        WHOLE
    } else {
        WITHOUT_CHECK
    };
    Some(behind.split_at(len).0)
}

/// Whether a message is a reply: its AK bit is set.
pub(crate) fn is_reply(message: &[u8]) -> bool
    requires { 44 ≤ length message.now }
    ensures { result ≡ acknowledges (type_of message.now) }
{
    message[2] >> 5 & 1 == 1
}
