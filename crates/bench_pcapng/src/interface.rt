//! An interface of a section.
ghost use Rattle.std.specs.Prelude.{◌≡◌, ◌≤◌, length};
ghost use Rattle.bench_pcapng.specs.Interfaces.{interface_of, plain_of};

use crate::options::with_options;
use crate::order::Order;

/// How many bytes stand before the options: the link type, two reserved bytes, and the snap length.
const DESCRIPTION_LEN: usize = 8;

/// The resolution of the times of an interface that gives none: microseconds.
const MICROSECONDS: u8 = 6;

/// What is kept of an interface.
#[derive(Clone, Copy, Drop)]
pub(crate) struct Interface {
    /// The link type, 1 of Ethernet.
    pub(crate) link: u16,
    /// How many bytes of a frame are stored at most; 0 is no limit.
    pub(crate) snap_length: u32,
    /// The resolution of the times: below 128 10 to so many ticks a second, and from there on 2 to so many above 128.
    pub(crate) resolution: u8,
    /// Seconds to be added to the times, as two's complement.
    pub(crate) offset: u64,
}

/// The interface of a description that has no options.
pub(crate) fn plain_interface(order: Order, body: &[u8]) -> Interface
    requires { 8 ≤ length body.now }
    ensures { result ≡ plain_of order body.now }
{
    Interface {
        link: order.read_u16(body),
        snap_length: order.read_u32(&body[4..]),
        resolution: MICROSECONDS,
        offset: 0,
    }
}

/// The interface that a description is of, or None where it is too small for what it holds.
#[tactic(auto, unfolding(crate::specs::Interfaces::interface_of))]
pub(crate) fn read_interface(order: Order, body: &[u8]) -> Option<Interface>
    ensures { result ≡ interface_of order body.now }
{
    if body.len() < DESCRIPTION_LEN {
        return None;
    }
    let plain = plain_interface(order, body);
    with_options(order, plain, &body[DESCRIPTION_LEN..])
}
