//! How a frame ends.
ghost use Rattle.std.specs.Prelude.{Decides};
ghost use Rattle.frame_meaning.specs.Meaning.{meaning};
ghost use Rattle.bench_sight.specs.Sight.{IsSeenAs};

use crate::buffers::Buffers;
use crate::gem::is_gem;
use crate::known::Known;
use crate::spelled::is_spelled;
use bench_history::{Digits, Event, Extent};
use forward_plan::{Live, Verdict};
use script_heads::read_head;

/// Whether a frame that was sent into a port ends as it was seen to, by these entities: it leaves by that GEM port and agrees with what
/// was seen, or it is dropped. `sent` is what is known of it, to this extent. A front that isn't [enough](crate::is_enough) doesn't
/// decide what becomes of a frame, so the answer then says nothing. `padded` allows zeros behind a frame that leaves with fewer than 68
/// bytes, up to 68 in all.
pub fn ends_as(
    live: &Live,
    padded: bool,
    port: u16,
    extent: Extent,
    sent: &Digits<'_>,
    seen: &Event<'_>,
    buffers: &mut Buffers,
) -> bool
    ensures { Decides result
        (IsSeenAs padded (meaning live.now port sent.now) extent seen.now) }
{
    let digits = sent.as_digits();
    match live.forward(port, read_head(digits, &mut buffers.sent)) {
        Verdict::Forward { gem, frame } => match seen {
            Event::Left {
                gem: seen_gem,
                extent: seen_extent,
                frame: left,
                ..
            } => {
                let known = Known { extent, digits };
                let seen = Known {
                    extent: *seen_extent,
                    digits: left.as_digits(),
                };
                is_gem(gem, *seen_gem)
                    && is_spelled(padded, &frame, &known, &seen, &mut buffers.seen)
            }
            _ => false,
        },
        Verdict::Drop(_) => matches!(seen, Event::Dropped { .. } | Event::Lost { .. }),
    }
}
