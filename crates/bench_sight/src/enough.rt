//! What has to be known of a frame.
ghost use Rattle.std.specs.Prelude.{◌≡◌};
ghost use Rattle.bench_sight.specs.Sight.{is_enough};

use bench_history::{Digits, Extent};

/// The shortest front that decides what becomes of a frame: its addresses, two tags, a type, and the front of an IP header that has the
/// DSCP.
const ENOUGH: usize = 24;

/// Whether what is known of a frame is enough to judge it: all of it, or a front of at least 24 bytes.
pub fn is_enough(extent: Extent, frame: &Digits<'_>) -> bool
    ensures { result ≡ is_enough extent frame.now }
{
    match extent {
        Extent::Whole => true,
        Extent::Front => frame.len() >= ENOUGH,
    }
}
