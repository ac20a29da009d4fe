//! What can be said in place of what no entry says.
use text_words::Word;

/// In place of a filter on the DSCP.
pub(crate) const DSCP: &str =
    "no entry filters by the DSCP, but a tag that is added can have its priority: inner(pcp=dscp)";

/// In place of a filter on an address.
const ADDRESS: &str = "no entry filters by an address, but by the tags and the type";

/// In place of a filter on several VIDs.
pub(crate) const ONE_VID: &str =
    "an entry filters by one VID or by any, so several VIDs have an entry each";

/// In place of a filter on another TPID.
pub(crate) const FILTERED_TPIDS: &str =
    "any, 8100 or input, which is the table's input TPID: set vlan INSTANCE input-tpid=0x88a8";

/// In place of another TPID that is added.
pub(crate) const ADDED_TPIDS: &str =
    "inner, outer, 8100 or output, which is the table's output TPID: set vlan INSTANCE output-tpid=0x88a8";

/// In place of a type by its number.
pub(crate) const TYPES: &str =
    "any, ipv4 (0x0800), pppoe (0x8863 or 0x8864), arp (0x0806), ipv6 (0x86dd) or eapol (0x888e)";

/// In place of what is said of no tag.
pub const ADDED: &str =
    "what a tag has that is added stands in parentheses: inner(vid=200) or outer(vid=200)";

/// In place of tags with which a dropped frame leaves.
pub const DROPPED: &str =
    "a frame that is dropped leaves with no tags, so nothing stands beside drop";

/// In place of a priority by the DSCP that is asked for.
pub(crate) const DSCP_EXPECTED: &str =
    "pcp is the priority that a tag has; of the DSCP asks dscp=46, outside the parentheses";

/// In place of several VIDs that are asked for.
pub(crate) const ONE_VID_EXPECTED: &str =
    "an expectation asks for one VID or any, so several VIDs have a line each";

/// In place of the table's input TPID.
pub(crate) const TPID_EXPECTED: &str =
    "an expectation names the TPID that a tag has, as in tpid=8100 or tpid=88a8, or says any";

/// What can be said in place of a word that a filter hasn't.
pub(crate) fn instead_of(name: Word<'_>) -> Option<&'static str> {
    match name.text {
        b"dscp" => Some(DSCP),
        b"dst" | b"src" => Some(ADDRESS),
        _ => None,
    }
}

/// Whether a word is hexadecimal digits, with `0x` in front or without.
pub(crate) fn is_hexadecimal(word: Word<'_>) -> bool {
    let digits = word.text.strip_prefix(b"0x").unwrap_or(word.text);
    !digits.is_empty() && digits.iter().all(|byte| byte.is_ascii_hexdigit())
}

/// Whether a word is several numbers: a range, or numbers with commas between them.
pub(crate) fn is_several(word: Word<'_>) -> bool {
    word.text.iter().any(|byte| *byte == b'-' || *byte == b',')
}
