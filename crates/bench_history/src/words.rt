//! The words of a line.
ghost use Rattle.std.specs.Prelude.{◌≡◌, ◌≤◌, ◌<◌, ◌==◌, ◌∷◌, [], IfSome, MatchOption, length, option_map, position};
ghost use Rattle.script_lines.specs.Line.{line_limit, port_of};
ghost use Rattle.bench_history.specs.Among.{words_of};
ghost use Rattle.bench_history.specs.Words.{gem_of, number_of, numbered, seen_bytes};

use crate::digits::Digits;
use crate::extent::Extent;
use crate::gem::SeenGem;
use crate::number::read_count;
use script_lines::read_port;

/// Where the first space stands.
pub(crate) fn space_in(parts: &[u8]) -> Option<usize>
    ensures { result ≡ position (λ b. b == 32) parts.now }
{
    parts.iter().position(|byte| *byte == b' ')
}

/// A number of 16 bits in one to five decimal digits, and what stands behind the first space; None where there is no such number.
pub(crate) fn split_port(parts: &[u8]) -> Option<(u16, &[u8])>
    ensures parts { option_map (λ (cut : _). (cut.0, cut.1.now)) result
        ≡ numbered port_of parts.now }
    ensures within { IfSome result (λ cut. length cut.1.now ≤ length parts.now) }
{
    let space = space_in(parts)?;
    let port = read_port(parts.split_at(space).0)?;
    Some((port, parts.split_at(space + 1).1))
}

/// The same of a number of 32 bits in one to ten decimal digits.
pub(crate) fn split_number(parts: &[u8]) -> Option<(u32, &[u8])>
    ensures parts { option_map (λ (cut : _). (cut.0, cut.1.now)) result
        ≡ numbered number_of parts.now }
    ensures within { IfSome result (λ cut. length cut.1.now ≤ length parts.now) }
{
    let space = space_in(parts)?;
    let number = read_count(parts.split_at(space).0)?;
    Some((number, parts.split_at(space + 1).1))
}

/// The GEM port that a word names; None where it names none.
fn read_gem(word: &[u8]) -> Option<SeenGem>
    ensures { result ≡ gem_of word.now }
{
    if word == b"any".as_slice() {
        return Some(SeenGem::Any);
    }
    Some(SeenGem::Port(read_port(word)?))
}

/// A GEM port, and what stands behind the first space; None where none is named.
pub(crate) fn split_gem(parts: &[u8]) -> Option<(SeenGem, &[u8])>
    ensures parts { option_map (λ (cut : _). (cut.0, cut.1.now)) result
        ≡ numbered gem_of parts.now }
    ensures within { IfSome result (λ cut. length cut.1.now ≤ length parts.now) }
{
    let space = space_in(parts)?;
    let gem = read_gem(parts.split_at(space).0)?;
    Some((gem, parts.split_at(space + 1).1))
}

/// How much of a frame was seen, and the digits of that, by `HEX` or `HEX..`.
pub(crate) fn read_seen(digits: &[u8]) -> Option<(Extent, Digits<'_>)>
    requires { length digits.now ≤ line_limit }
    ensures { result ≡ seen_bytes digits.now }
{
    if let Some(front) = digits.strip_suffix(b"..") {
        return Some((Extent::Front, Digits::of(front)?));
    }
    Some((Extent::Whole, Digits::of(digits)?))
}

/// The first word of a text, and what stands behind its space; None where it is the last.
pub(crate) fn split_word(text: &[u8]) -> (&[u8], Option<&[u8]>)
    ensures words { MatchOption result.1
        (words_of text.now ≡ result.0.now ∷ [])
        (λ behind. words_of text.now ≡ result.0.now ∷ words_of behind.now) }
    ensures shorter { IfSome result.1 (λ behind. length behind.now < length text.now) }
{
    match space_in(text) {
        Some(space) => (text.split_at(space).0, Some(text.split_at(space + 1).1)),
        None => (text, None),
    }
}
