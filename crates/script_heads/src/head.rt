//! The reading of a frame's first bytes.
ghost use Rattle.std.specs.Prelude.{◌≡◌, ◌≤◌, ℕ, List, Ok, length};
ghost use Rattle.hex.specs.Hex.{decode_of};
ghost use Rattle.script_lines.specs.Line.{line_limit};
ghost use Rattle.script_heads.specs.Heads.{IsHeadOf};

use script_digits::read_digits;
use script_lines::MOST_SPELLED;

/// How many bytes of a frame decide what becomes of it: its addresses, two tags, a type, and the front of an IP header that has the
/// DSCP.
const HEAD: usize = 24;

/// As many bytes as digits spell, of which the first are those that they spell. What the others are is left open: entities mean the same
/// for these bytes as for those that are spelled, but for the rest behind the tags that a frame leaves with.
pub fn read_head<'b>(digits: &[u8], buffer: &'b mut [u8; MOST_SPELLED]) -> &'b [u8]
    requires { length digits.now ≤ line_limit }
    ensures { (bytes : List ℕ) → decode_of digits.now ≡ Ok bytes → IsHeadOf bytes result.now }
{
    let count = digits.len() / 2;
    let known = count.min(HEAD);
    read_digits(digits.split_at(2 * known).0, &mut buffer[..known]);
    &buffer[..count]
}
