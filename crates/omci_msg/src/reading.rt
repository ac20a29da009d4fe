//! A request or a reply from its bytes.
ghost use Rattle.std.specs.Prelude.{◌≡◌, ◌≢◌, ◌<◌, ◌≤◌, OnOk, OnErr, IfErr, length};
ghost use Rattle.omci_msg.specs.declared.fault.MsgFault.TheVariants.{Device};
ghost use Rattle.omci_msg.specs.Message.{is_bit_set, action_in as five_bits_action, contents_of as middle_bytes, device_of, type_for_this_end, reply_of, request_of};

use crate::action::Action;
use crate::fault::MsgFault;
use crate::header::{ACTION_MASK, AK_BIT, AR_BIT, BASELINE, DESTINATION_BIT};
use crate::reply::Reply;
use crate::request::Request;
use byteorder::{BigEndian, ByteOrder};

/// Whether the bit at a place is set, counted from the lowest.
fn is_set(byte: u8, bit: u8) -> bool
    requires { bit < 8 }
    ensures { result ≡ is_bit_set byte bit }
{
    byte >> bit & 1 == 1
}

/// The action in the low five bits of a message type.
fn action_in(kind: u8) -> Action
    ensures { result ≡ five_bits_action kind }
{
    Action::of(kind & ACTION_MASK).unwrap()
}

/// The message type, where there are as many bytes as a message has and the destination bit is 0.
fn type_for_this_end(bytes: &[u8]) -> Result<u8, MsgFault>
    ensures value { result ≡ type_for_this_end bytes.now }
    ensures long { OnOk result (44 ≤ length bytes.now) }
{
    if bytes.len() != 48 && bytes.len() != 44 {
        return Err(MsgFault::Length(bytes.len()));
    }
    let kind = bytes[2];
    if is_set(kind, DESTINATION_BIT) {
        return Err(MsgFault::Destination);
    }
    Ok(kind)
}

/// That the device identifier is the one of the baseline message set.
fn check_device(bytes: &[u8]) -> Result<(), MsgFault>
    requires { 44 ≤ length bytes.now }
    ensures baseline { OnOk result (device_of bytes.now ≡ 0x0a) }
    ensures other { OnErr result (device_of bytes.now ≢ 0x0a) }
    ensures fault { IfErr result (λ fault. fault ≡ Device (device_of bytes.now)) }
{
    match bytes[3] {
        BASELINE => Ok(()),
        other => Err(MsgFault::Device(other)),
    }
}

/// The contents of a message.
fn contents_in(bytes: &[u8]) -> [u8; 32]
    requires { 44 ≤ length bytes.now }
    ensures { result ≡ middle_bytes bytes.now }
{
    let mut contents = [0; 32];
    contents.copy_from_slice(&bytes[8..40]);
    contents
}

/// What the bytes of a message ask (ITU-T G.988, clause 11.2). The trailer isn't looked at, and its
/// last four bytes may be missing, so a message has 48 bytes or 44.
#[tactic(auto, unfolding(crate::specs::Message::request_of))]
pub fn read(bytes: &[u8]) -> Result<Request, MsgFault>
    ensures { result ≡ request_of bytes.now }
{
    let kind = type_for_this_end(bytes)?;
    if is_set(kind, AK_BIT) {
        return Err(MsgFault::NotRequest);
    }
    check_device(bytes)?;
    Ok(Request {
        tci: BigEndian::read_u16(bytes),
        action: action_in(kind),
        wants_answer: is_set(kind, AR_BIT),
        class: BigEndian::read_u16(&bytes[4..]),
        instance: BigEndian::read_u16(&bytes[6..]),
        contents: contents_in(bytes),
    })
}

/// What the bytes of a message answer (ITU-T G.988, clause 11.2). As for `read`, the trailer isn't
/// looked at, and there are 48 bytes or 44.
#[tactic(auto, unfolding(crate::specs::Message::reply_of))]
pub fn read_reply(bytes: &[u8]) -> Result<Reply, MsgFault>
    ensures { result ≡ reply_of bytes.now }
{
    let kind = type_for_this_end(bytes)?;
    if is_set(kind, AR_BIT) || !is_set(kind, AK_BIT) {
        return Err(MsgFault::NotReply);
    }
    check_device(bytes)?;
    Ok(Reply {
        tci: BigEndian::read_u16(bytes),
        action: action_in(kind),
        class: BigEndian::read_u16(&bytes[4..]),
        instance: BigEndian::read_u16(&bytes[6..]),
        contents: contents_in(bytes),
    })
}
