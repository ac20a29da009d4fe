//! Where a block ends, and in which byte order it is written.
ghost use Rattle.std.specs.Prelude.{◌≡◌, ◌≤◌, ◌+◌, IfSome, length};
ghost use Rattle.bench_pcapng.specs.Blocks.{order_by_mark, order_of_block, wanted_length, whole_length};

use crate::order::Order;

/// How many bytes of a block stand around its body: the type and the length, and the length again.
pub(crate) const AROUND_BODY: usize = 12;

/// The type of a section header block, the same in either byte order.
pub(crate) const SECTION: u32 = 0x0a0d_0d0a;

/// The byte order that a byte order mark shows, read with its highest byte first.
pub(crate) fn order_by_mark(mark: u32) -> Option<Order>
    ensures { result ≡ order_by_mark mark }
{
    match mark {
        0x1a2b_3c4d => Some(Order::HighFirst),
        0x4d3c_2b1a => Some(Order::LowFirst),
        _ => None,
    }
}

/// The byte order that the first block is written in: that of the section, but a section header block shows its own.
#[tactic(auto, unfolding(crate::specs::Blocks::order_of_block))]
pub(crate) fn order_of_block(order: Order, bytes: &[u8]) -> Option<Order>
    requires { 12 ≤ length bytes.now }
    ensures { result ≡ order_of_block order bytes.now }
{
    if order.read_u32(bytes) == SECTION {
        order_by_mark(Order::HighFirst.read_u32(&bytes[8..]))
    } else {
        Some(order)
    }
}

/// How many bytes the first block has, or None where it isn't whole.
#[tactic(auto, unfolding(crate::specs::Blocks::whole_length))]
pub(crate) fn block_length(order: Order, bytes: &[u8]) -> Option<usize>
    ensures value { result ≡ whole_length order bytes.now }
    ensures least { IfSome result (λ whole. 12 ≤ whole) }
    ensures within { IfSome result (λ whole. whole ≤ length bytes.now) }
{
    if bytes.len() < AROUND_BODY {
        return None;
    }
    let own = order_of_block(order, bytes)?;
    let total = own.read_u32(&bytes[4..]) as usize;
    if total < AROUND_BODY || total % 4 != 0 || total > bytes.len() {
        return None;
    }
    if own.read_u32(&bytes[total - 4..]) as usize != total {
        return None;
    }
    Some(total)
}

/// How many bytes show whether the first block is whole.
#[tactic(auto, unfolding(crate::specs::Blocks::wanted_length))]
pub(crate) fn wanted_length(order: Order, bytes: &[u8]) -> usize
    ensures { result ≡ wanted_length order bytes.now }
{
    if bytes.len() < AROUND_BODY {
        return AROUND_BODY;
    }
    let Some(own) = order_of_block(order, bytes) else {
        return AROUND_BODY;
    };
    let total = own.read_u32(&bytes[4..]) as usize;
    if total % 4 == 0 { total } else { AROUND_BODY }
}
