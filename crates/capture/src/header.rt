//! The header of a capture.
ghost use Rattle.std.specs.Prelude.{◌≡◌};
ghost use Rattle.capture.specs.Records.{order_of, header_of};

use crate::fault::CaptureFault;
use crate::limits::ETHERNET;
use crate::order::Order;
use byteorder::{BigEndian, ByteOrder};

/// How many bytes the header has.
pub const HEADER_LEN: usize = 24;

/// The byte order that the magic number at a file's start shows. The second number of each order
/// says that times are in nanoseconds; they aren't looked at.
fn order_of(file: &[u8]) -> Option<Order>
    ensures { result ≡ order_of file.now }
{
    if file.len() < 4 {
        return None;
    }
    match BigEndian::read_u32(file) {
        0xa1b2_c3d4 | 0xa1b2_3c4d => Some(Order::HighFirst),
        0xd4c3_b2a1 | 0x4d3c_b2a1 => Some(Order::LowFirst),
        _ => None,
    }
}

/// The byte order of a capture of Ethernet frames, whose header is whole. Version, zone, accuracy
/// and snap length aren't looked at, and of the link type only its low 16 bits.
pub fn read_header(file: &[u8]) -> Result<Order, CaptureFault>
    ensures { result ≡ header_of file.now }
{
    let order = order_of(file).ok_or(CaptureFault::Magic)?;
    if file.len() < HEADER_LEN {
        return Err(CaptureFault::Header);
    }
    match (order.read_u32(&file[20..]) & 0xffff) as u16 {
        ETHERNET => Ok(order),
        other => Err(CaptureFault::Link(other)),
    }
}
