//! The DSCP of a frame as a place in a list.
ghost use Rattle.std.specs.Prelude.{◌≡◌, ◌≤◌, ◌<◌, length};
ghost use Rattle.tag_view.specs.Frame.{type_at};
ghost use Rattle.tag_view.specs.Dscp.{dscp_of};
ghost use Rattle.port_plan.specs.Plan.{IsDscp, dscp_place};

use byteorder::{BigEndian, ByteOrder};

/// The place of frames without a DSCP, behind those of the 64.
const NONE: usize = 64;

/// The type of IPv4 packets.
const IPV4: u16 = 0x0800;

/// The type of IPv6 packets.
const IPV6: u16 = 0x86dd;

/// The place of the DSCP (RFC 2474, section 3) of what follows a frame's tags, from the type on, with that type: its
/// number, and 64 for none.
///
/// Both kinds of packets have it in the two bytes behind the type, in bits 2 to 7 of these (IPv4) or 6 to 11 (IPv6). So
/// only frames that end there branch off.
#[inline(always)]
pub(crate) fn place_of_dscp(rest: &[u8], ethertype: u16) -> usize
    requires ethertype { ethertype ≡ type_at 0 rest.now }
    requires whole { 2 ≤ length rest.now }
    ensures value { result ≡ dscp_place (dscp_of rest.now) }
    ensures bound { result < 65 }
    ensures six_bits { IsDscp (dscp_of rest.now) }
{
    if rest.len() < 4 {
        return NONE;
    }
    let behind = BigEndian::read_u16(&rest[2..]);
    let shift = if ethertype == IPV4 { 2u32 } else { 6u32 };
    let dscp = usize::from(behind >> shift) % 64;
    if (ethertype == IPV4) | (ethertype == IPV6) {
        dscp
    } else {
        NONE
    }
}
