//! Messages and replies by the digits that spell them.
ghost use Rattle.std.specs.Prelude.{◌≡◌, ◌<◌, MatchOption, length};
ghost use Rattle.std.specs.Result.{result_ok};
ghost use Rattle.omci_msg.specs.Message.{reply_of, request_of};

use bench_history::Digits;
use omci_msg::{Reply, Request, read, read_reply};
use script_lines::read_bytes;

/// The bytes of a message, put into a buffer; None where there are more than the 48 that a message has.
pub fn message_bytes<'a>(digits: &Digits<'_>, buffer: &'a mut [u8; 48]) -> Option<&'a [u8]>
    ensures { MatchOption result (48 < length digits.now) (λ bytes. bytes.now ≡ digits.now) }
{
    if digits.len() > 48 {
        return None;
    }
    read_bytes(digits.as_digits(), buffer)
}

/// What a message asks, None where it has a fault.
#[tactic(auto, using(crate::proofs::Lengths::long_request))]
pub fn read_asked(message: &Digits<'_>) -> Option<Request>
    ensures { result ≡ result_ok (request_of message.now) }
{
    let mut buffer = [0; 48];
    let bytes = message_bytes(message, &mut buffer)?;
    read(bytes).ok()
}

/// What a reply answers, None where it has a fault.
#[tactic(auto, using(crate::proofs::Lengths::long_reply))]
pub fn read_answered(reply: &Digits<'_>) -> Option<Reply>
    ensures { result ≡ result_ok (reply_of reply.now) }
{
    let mut buffer = [0; 48];
    let bytes = message_bytes(reply, &mut buffer)?;
    read_reply(bytes).ok()
}
