//! The options of an interface.
ghost use Rattle.std.specs.Prelude.{◌≡◌, ◌≤◌, ◌<◌, ◌^◌, IfSome, length, option_map};
ghost use Rattle.bench_pcapng.specs.Interfaces.{behind_option, first_option, options_of, padded, with_option};

use crate::interface::Interface;
use crate::order::Order;

/// How many bytes stand before an option's value: its code and its length.
pub(crate) const OPTION_HEADER_LEN: usize = 4;

/// The code of the option that ends the options.
pub(crate) const END: u16 = 0;

/// The code of the resolution of the times.
const RESOLUTION: u16 = 9;

/// The code of the seconds to be added to the times.
const OFFSET: u16 = 14;

/// A length made a multiple of four.
pub(crate) fn padded(length: usize) -> usize
    requires { length < 2 ^ 16 }
    ensures { result ≡ padded length }
{
    (length + 3) / 4 * 4
}

/// The interface with one option more; None where the value of one that is read hasn't the length that it must have.
fn with_option(order: Order, plain: Interface, code: u16, value: &[u8]) -> Option<Interface>
    ensures { result ≡ with_option order plain code value.now }
{
    match code {
        RESOLUTION if value.len() == 1 => Some(Interface {
            resolution: value[0],
            ..plain
        }),
        OFFSET if value.len() == 8 => Some(Interface {
            offset: order.read_u64(value),
            ..plain
        }),
        RESOLUTION | OFFSET => None,
        _ => Some(plain),
    }
}

/// The interface with the first option, and what stands behind that; None where its value or the padding is cut, or has the wrong length.
#[tactic(auto, unfolding(crate::specs::Interfaces::first_option, crate::specs::Interfaces::behind_option))]
pub(crate) fn split_option(
    order: Order,
    plain: Interface,
    bytes: &[u8],
) -> Option<(Interface, &[u8])>
    requires { 4 ≤ length bytes.now }
    ensures interface { option_map (λ parts. parts.0) result ≡ first_option order plain bytes.now }
    ensures behind { IfSome result (λ parts. parts.1.now ≡ behind_option order bytes.now) }
    ensures shorter { IfSome result (λ parts. length parts.1.now < length bytes.now) }
{
    let size = order.read_u16(&bytes[2..]) as usize;
    let room = padded(size);
    let (_, behind) = bytes.split_at(OPTION_HEADER_LEN);
    if behind.len() < room {
        return None;
    }
    let (value, _) = behind.split_at(size);
    let (_, left) = behind.split_at(room);
    let more = with_option(order, plain, order.read_u16(bytes), value)?;
    Some((more, left))
}

/// The interface with its options; None where one is cut, or has the wrong length. They end with the bytes, or where an option says so.
pub(crate) fn with_options(order: Order, plain: Interface, options: &[u8]) -> Option<Interface>
    ensures { result ≡ options_of order plain options.now }
{
    let mut interface = plain;
    let mut rest = options;
    while rest.len() != 0 {
        if rest.len() < OPTION_HEADER_LEN {
            return None;
        }
        if order.read_u16(rest) == END {
            return Some(interface);
        }
        let (more, behind) = split_option(order, interface, rest)?;
        interface = more;
        rest = behind;
    }
    Some(interface)
}
