//! The byte order mark in front of a text.

/// The byte order mark of UTF-8 (RFC 3629, section 6), which some editors put in front of a text.
const MARK: &[u8] = b"\xef\xbb\xbf";

/// A text without the byte order mark in front of it.
pub fn without_mark(text: &[u8]) -> &[u8] {
    text.strip_prefix(MARK).unwrap_or(text)
}
