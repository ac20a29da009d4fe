//! How many bytes of a frame may be seen.
ghost use Rattle.std.specs.Prelude.{◌≡◌};
ghost use Rattle.bench_sight.specs.Parts.{lengths_agree};

use bench_history::Extent;

/// How many bytes a shorter frame may be padded to: the 60 that a wire wants without its check sequence, and two tags that are added later.
const PADDED: usize = 68;

/// Whether so many bytes that leave and so many that were seen may agree.
pub(crate) fn lengths_agree(
    padded: bool,
    extent: Extent,
    leaves: usize,
    seen_extent: Extent,
    seen: usize,
) -> bool
    ensures { result ≡ lengths_agree padded extent leaves seen_extent seen }
{
    let most = if padded { leaves.max(PADDED) } else { leaves };
    match (extent, seen_extent) {
        (Extent::Whole, Extent::Whole) => leaves <= seen && seen <= most,
        (Extent::Whole, Extent::Front) => seen < most,
        (Extent::Front, Extent::Whole) => leaves < seen,
        (Extent::Front, Extent::Front) => true,
    }
}
