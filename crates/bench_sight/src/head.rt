//! What stands before the rest of a frame that leaves: its addresses and tags.
ghost use Rattle.std.specs.Prelude.{◌≡◌, ◌+◌, ◌*◌, ◌≤◌, ◌++◌, ℕ, List, Ok, Decides, length};
ghost use Rattle.std.specs.Io.{StartsWith};
ghost use Rattle.std.specs.List.{flat_map};
ghost use Rattle.hex.specs.Hex.{decode_of};
ghost use Rattle.tag_view.specs.Tag.{tag_bytes};
ghost use Rattle.script_lines.specs.Line.{line_limit};

use frame_meaning::OutFrame;
use script_lines::{MOST_SPELLED, read_bytes};
use tag_view::Tag;

/// How many bytes stand before the rest.
pub(crate) fn head_length(frame: &OutFrame<'_>) -> usize
    ensures length { result ≡ length (frame.now.addresses ++ flat_map tag_bytes frame.now.tags) }
    ensures short { result ≤ 28 }
{
    frame.addresses().len() + 4 * frame.tags().len()
}

/// Whether the bytes of tags begin with these.
fn tags_begin(tags: &[Tag], bytes: &[u8]) -> bool
    ensures { Decides result (StartsWith (flat_map tag_bytes tags.now) bytes.now) }
{
    let mut rest = bytes;
    for tag in tags {
        let Some(behind) = rest.strip_prefix(&tag.bytes()) else {
            return tag.bytes().starts_with(rest);
        };
        rest = behind;
    }
    rest.is_empty()
}

/// Whether what stands before the rest begins with the bytes that digits spell.
pub(crate) fn head_begins(
    frame: &OutFrame<'_>,
    digits: &[u8],
    buffer: &mut [u8; MOST_SPELLED],
) -> bool
    requires { length digits.now ≤ line_limit }
    ensures { (bytes : List ℕ) → decode_of digits.now ≡ Ok bytes
        → Decides result (StartsWith (frame.now.addresses ++ flat_map tag_bytes frame.now.tags)
        bytes) }
{
    let Some(bytes) = read_bytes(digits, buffer) else {
        return false;
    };
    let Some(tags) = bytes.strip_prefix(frame.addresses()) else {
        return frame.addresses().starts_with(bytes);
    };
    tags_begin(frame.tags(), tags)
}
