//! A frame in words.
use crate::frame::{IPV4, IPV6, begun_packet, type_word};
use std::alloc::AllocError;
use tag_view::{CUSTOMER_TPID, SERVICE_TPID};

/// The two addresses, six bytes each.
const ADDRESSES: usize = 12;

/// The first two bytes as a number.
fn type_in(bytes: &[u8]) -> Option<u16> {
    match bytes {
        [high, low, ..] => Some(u16::from_be_bytes([*high, *low])),
        _ => None,
    }
}

/// Puts ` NAME=` and an address.
fn put_address(text: &mut String, name: &str, address: &[u8]) -> Result<(), AllocError> {
    write!(text, " {name}=")?;
    let mut separator = "";
    for byte in address {
        write!(text, "{separator}{byte:02x}")?;
        separator = ":";
    }
    Ok(())
}

/// Puts the tags in front of bytes, and gives what stands behind them.
fn put_tags<'a>(text: &mut String, bytes: &'a [u8]) -> Result<&'a [u8], AllocError> {
    let mut rest = bytes;
    for _ in 0..16 {
        let [a, b, c, d, behind @ ..] = rest else {
            return Ok(rest);
        };
        let tpid = u16::from_be_bytes([*a, *b]);
        if tpid != CUSTOMER_TPID && tpid != SERVICE_TPID {
            return Ok(rest);
        }
        let control = u16::from_be_bytes([*c, *d]);
        let (priority, eligible, vid) = (control >> 13, control >> 12 & 1, control & 0xfff);
        write!(text, " tag={tpid:04x}:{priority}:{eligible}:{vid}")?;
        rest = behind;
    }
    Ok(rest)
}

/// The DSCP of a packet that begins with the two bytes that words give it, behind which all is zero.
fn plain_dscp(ethertype: u16, packet: &[u8]) -> Option<u8> {
    let [first, second, rest @ ..] = packet else {
        return None;
    };
    let dscp = match ethertype {
        IPV4 => *second >> 2,
        IPV6 => (*first & 0x0f) << 2 | *second >> 6,
        _ => return None,
    };
    let is_plain = rest.iter().all(|byte| *byte == 0);
    if is_plain && begun_packet(ethertype, dscp) == Some([*first, *second]) {
        Some(dscp)
    } else {
        None
    }
}

/// Puts what stands behind the type: a DSCP, the length of the frame, or the bytes.
fn put_packet(
    text: &mut String,
    ethertype: u16,
    packet: &[u8],
    length: usize,
) -> Result<(), AllocError> {
    if let Some(dscp) = plain_dscp(ethertype, packet) {
        write!(text, " dscp={dscp}")?;
        if packet.len() == 2 {
            return Ok(());
        }
        return write!(text, " length={length}");
    }
    if packet.is_empty() {
        return Ok(());
    }
    if packet.iter().all(|byte| *byte == 0) {
        return write!(text, " length={length}");
    }
    text.push_str(" payload=")?;
    for byte in packet {
        write!(text, "{byte:02x}")?;
    }
    Ok(())
}

/// Puts a frame in words. Whether it has words; that they ask for the same frame isn't looked at here.
pub(crate) fn put_frame(text: &mut String, port: u16, bytes: &[u8]) -> Result<bool, AllocError> {
    if bytes.len() < ADDRESSES {
        return Ok(false);
    }
    let (addresses, rest) = bytes.split_at(ADDRESSES);
    let (destination, source) = addresses.split_at(6);
    write!(text, "frame {port}")?;
    put_address(text, "dst", destination)?;
    put_address(text, "src", source)?;
    let rest = put_tags(text, rest)?;
    let (Some(ethertype), [_, _, packet @ ..]) = (type_in(rest), rest) else {
        return Ok(false);
    };
    match type_word(ethertype) {
        Some(word) => write!(text, " type={word}")?,
        None => write!(text, " type=0x{ethertype:04x}")?,
    }
    put_packet(text, ethertype, packet, bytes.len())?;
    Ok(true)
}
