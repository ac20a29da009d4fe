//! Times in nanoseconds.
ghost use Rattle.std.specs.Prelude.{◌≡◌, ◌<◌, ◌^◌};
ghost use Rattle.bench_pcapng.specs.Times.{moved_by, nanoseconds_in, nanoseconds_of};

/// How many nanoseconds a second has.
const SECOND: u128 = 1_000_000_000;

/// The greatest power of ten that is looked at. Beyond it, ticks of 64 bits are under a nanosecond.
const LEAST_TICK: u8 = 28;

/// The nanoseconds that so many ticks are, without their fraction.
#[tactic(auto, unfolding(crate::specs::Times::nanoseconds_in))]
fn nanoseconds_in(ticks: u64, resolution: u8) -> u128
    ensures value { result ≡ nanoseconds_in ticks resolution }
    ensures few { result < 2 ^ 94 }
{
    let wide = u128::from(ticks) * SECOND;
    if resolution >= 128 {
        return wide >> (resolution - 128);
    }
    if resolution > LEAST_TICK {
        return 0;
    }
    wide / 10u128.pow(u32::from(resolution))
}

/// Nanoseconds moved by an offset in seconds, which is two's complement: 0 where that is before the epoch, and the greatest number
/// where it is beyond.
#[tactic(auto, unfolding(crate::specs::Times::moved_by))]
fn moved_by(offset: u64, since: u128) -> u64
    requires { since < 2 ^ 94 }
    ensures { result ≡ moved_by offset since }
{
    let moved = if offset < 1 << 63 {
        since + u128::from(offset) * SECOND
    } else {
        since.saturating_sub((u128::from(u64::MAX) + 1 - u128::from(offset)) * SECOND)
    };
    moved.min(u128::from(u64::MAX)) as u64
}

/// The nanoseconds since the epoch at which an interface of this resolution and offset counts these ticks.
pub(crate) fn nanoseconds_of(resolution: u8, offset: u64, ticks: u64) -> u64
    ensures { result ≡ nanoseconds_of resolution offset ticks }
{
    moved_by(offset, nanoseconds_in(ticks, resolution))
}
