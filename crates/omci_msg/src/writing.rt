//! The bytes of a request or a reply.
ghost use Rattle.std.specs.Prelude.{◌≡◌};
ghost use Rattle.omci_msg.specs.Message.{reply_spelling, request_spelling, spelling};

use crate::header::{AK_BIT, AR_BIT, BASELINE};
use crate::reply::Reply;
use crate::request::Request;
use byteorder::{BigEndian, ByteOrder};

/// The bytes of a message by its fields. The trailer's last four bytes, which are the line's
/// checksum, are zero.
fn spelling(tci: u16, kind: u8, class: u16, instance: u16, contents: &[u8; 32]) -> [u8; 48]
    ensures { result ≡ spelling tci kind class instance contents.now }
{
    let mut bytes = [0; 48];
    BigEndian::write_u16(&mut bytes[..2], tci);
    bytes[2] = kind;
    bytes[3] = BASELINE;
    BigEndian::write_u16(&mut bytes[4..6], class);
    BigEndian::write_u16(&mut bytes[6..8], instance);
    bytes[43] = 0x28;
    bytes[8..40].copy_from_slice(contents);
    bytes
}

/// The 48 bytes of a request (ITU-T G.988, clause 11.2), with AK 0, and AR 1 where it wants an
/// answer. The trailer's last four bytes, which are the line's checksum, are zero.
#[tactic(auto, unfolding(crate::specs::Message::request_spelling))]
pub fn write_request(request: &Request) -> [u8; 48]
    ensures { result ≡ request_spelling request.now }
{
    let ar = if request.wants_answer { 1 << AR_BIT } else { 0 };
    let kind = ar + request.action.code();
    spelling(
        request.tci,
        kind,
        request.class,
        request.instance,
        &request.contents,
    )
}

/// The 48 bytes of a reply (ITU-T G.988, clause 11.2), with AR 0 and AK 1. The trailer's last four
/// bytes are zero.
#[tactic(auto, unfolding(crate::specs::Message::reply_spelling))]
pub fn write(reply: &Reply) -> [u8; 48]
    ensures { result ≡ reply_spelling reply.now }
{
    let kind = (1 << AK_BIT) + reply.action.code();
    spelling(
        reply.tci,
        kind,
        reply.class,
        reply.instance,
        &reply.contents,
    )
}
