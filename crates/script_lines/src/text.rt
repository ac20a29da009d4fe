//! The lines of a text.
ghost use Rattle.std.specs.Prelude.{◌≡◌, ◌∷◌, ◌<◌, length};
ghost use Rattle.script_lines.specs.Text.{lines_of};

use memchr::memchr;

/// The first line of a text that isn't empty, without its line feed, and what stands behind that. A last line without a line feed
/// is a line too.
#[inline]
pub fn first_line(text: &[u8]) -> (&[u8], &[u8])
    requires { 0 < length text.now }
    ensures lines { lines_of text.now ≡ result.0.now ∷ lines_of result.1.now }
    ensures shorter { length result.1.now < length text.now }
{
    match memchr(b'\n', text) {
        Some(end) => (&text[..end], text.split_at(end + 1).1),
        None => (text, &[]),
    }
}
