//! A frame that leaves, compared with digits.
ghost use Rattle.std.specs.Prelude.{◌≡◌, ◌-◌, ◌*◌, ◌≤◌, ℕ, List, Ok, Decides, true, drop, length};
ghost use Rattle.std.specs.Io.{StartsWith};
ghost use Rattle.hex.specs.Hex.{decode_of};
ghost use Rattle.tag_view.specs.Frame.{frame_bytes};
ghost use Rattle.script_lines.specs.Line.{line_limit};
ghost use Rattle.bench_sight.specs.Parts.{IsPadding};
ghost use Rattle.bench_sight.specs.Sight.{agree};

use crate::digits::{are_zeros, spell_the_same};
use crate::head::{head_begins, head_length};
use crate::known::Known;
use crate::lengths::lengths_agree;
use bench_history::Extent;
use frame_meaning::OutFrame;
use script_lines::MOST_SPELLED;

/// Whether a frame that leaves begins with the bytes that digits spell. Its rest is of the bytes that the digits of the frame that was
/// sent spell.
fn begins(frame: &OutFrame<'_>, sent: &[u8], seen: &[u8], buffer: &mut [u8; MOST_SPELLED]) -> bool
    requires rest { 2 * length frame.now.rest ≤ length sent.now }
    requires short { length seen.now ≤ line_limit }
    requires within { length seen.now ≤ 2 * length (frame_bytes frame.now) }
    ensures { (bytes more : List ℕ) → decode_of sent.now ≡ Ok bytes → decode_of seen.now ≡ Ok more
        → Decides result (StartsWith (frame_bytes (record frame.now {
          rest = drop (length bytes - length frame.now.rest) bytes;
        })) more) }
{
    let (head, behind) = seen.split_at(seen.len().min(2 * head_length(frame)));
    let rest = sent.split_at(sent.len() - 2 * frame.rest().len()).1;
    spell_the_same(rest.split_at(behind.len()).0, behind) && head_begins(frame, head, buffer)
}

/// Whether what was seen behind the bytes of a frame that leaves may stand there: zeros behind a whole one, anything behind a front.
fn is_padding(extent: Extent, behind: &[u8]) -> bool
    ensures { (bytes : List ℕ) → decode_of behind.now ≡ Ok bytes
        → Decides result (IsPadding extent bytes) }
{
    match extent {
        Extent::Whole => are_zeros(behind),
        Extent::Front => true,
    }
}

/// Whether what is known of a frame that leaves agrees with what was seen. It is known as the one that was sent is.
pub(crate) fn is_spelled(
    padded: bool,
    frame: &OutFrame<'_>,
    sent: &Known<'_>,
    seen: &Known<'_>,
    buffer: &mut [u8; MOST_SPELLED],
) -> bool
    requires rest { 2 * length frame.now.rest ≤ length sent.now.digits.now }
    requires short { length seen.now.digits.now ≤ line_limit }
    ensures { (bytes more : List ℕ) → decode_of sent.now.digits.now ≡ Ok bytes
        → decode_of seen.now.digits.now ≡ Ok more
        → Decides result (agree padded sent.now.extent (frame_bytes (record frame.now {
          rest = drop (length bytes - length frame.now.rest) bytes;
        })) seen.now.extent more ≡ true) }
{
    let leaves = head_length(frame) + frame.rest().len();
    if !lengths_agree(
        padded,
        sent.extent,
        leaves,
        seen.extent,
        seen.digits.len() / 2,
    ) {
        return false;
    }
    let (own, behind) = seen.digits.split_at(seen.digits.len().min(2 * leaves));
    is_padding(sent.extent, behind) && begins(frame, sent.digits, own, buffer)
}
