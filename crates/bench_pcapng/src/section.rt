//! The body of a section header block.
ghost use Rattle.std.specs.Prelude.{◌≡◌};
ghost use Rattle.bench_pcapng.specs.Sections.{section_of};

use crate::block::order_by_mark;
use crate::order::Order;

/// How many bytes stand before the options: the byte order mark, the version in two numbers, and the length of the section.
const SECTION_LEN: usize = 16;

/// The version's first number.
const MAJOR: u16 = 1;

/// The byte order of a section, or None where its header is cut, its mark is neither way round or its version isn't 1.x. The length
/// of the section isn't looked at.
#[tactic(auto, unfolding(crate::specs::Sections::section_of))]
pub(crate) fn read_section(body: &[u8]) -> Option<Order>
    ensures { result ≡ section_of body.now }
{
    if body.len() < SECTION_LEN {
        return None;
    }
    let order = order_by_mark(Order::HighFirst.read_u32(body))?;
    if order.read_u16(&body[4..]) != MAJOR {
        return None;
    }
    Some(order)
}
