//! Keys that together admit the frames of another.
use arrayvec::ArrayVec;

/// The filter of a tag, as a key has it: the priority, the VID and the TPID/DE of one of its two words (ITU-T G.988, 9.3.13).
#[derive(Clone, Copy, PartialEq, Eq)]
struct Word {
    priority: u32,
    vid: u32,
    tpid: u32,
    /// What stands behind them: padding, and in the second word the Ethertype.
    rest: u32,
}

/// The filter priority of any priority.
const ANY_PRIORITY: u32 = 8;
/// The filter VID of any VID.
const ANY_VID: u32 = 4096;
/// The filter priority of a default entry.
const DEFAULT: u32 = 14;
/// The filter priority of a tag that isn't there.
const ABSENT: u32 = 15;

/// The most keys that stand for one.
pub(crate) const MOST_KEYS: usize = 8;

/// Keys that together admit the frames of another.
pub(crate) type Keys = ArrayVec<u64, MOST_KEYS>;

impl Word {
    fn of(word: u32) -> Word {
        Word {
            priority: word >> 28,
            vid: word >> 15 & 0x1fff,
            tpid: word >> 12 & 7,
            rest: word & 0xfff,
        }
    }

    fn number(self) -> u32 {
        (self.priority & 15) << 28
            | (self.vid & 0x1fff) << 15
            | (self.tpid & 7) << 12
            | self.rest & 0xfff
    }

    /// Whether it admits every tag.
    fn is_any(self) -> bool {
        self.priority == ANY_PRIORITY && self.vid == ANY_VID && self.tpid == 0
    }
}

/// The two words of a key.
fn words_of(key: u64) -> (Word, Word) {
    let [a, b, c, d, e, f, g, h] = key.to_be_bytes();
    let outer = u32::from_be_bytes([a, b, c, d]);
    let inner = u32::from_be_bytes([e, f, g, h]);
    (Word::of(outer), Word::of(inner))
}

fn key_of(outer: Word, inner: Word) -> u64 {
    u64::from(outer.number()) << 32 | u64::from(inner.number())
}

/// A word that asks nothing of a tag, with a priority and a VID.
fn plain(priority: u32, vid: u32, rest: u32) -> Word {
    Word {
        priority,
        vid,
        tpid: 0,
        rest,
    }
}

/// The key of a default entry that admits the same frames, where a key asks nothing of its tags; or that of an entry with filters, in the place of a default
/// one. The VID of a field that the standard ignores is 0 or any.
fn default_or_filters(outer: Word, inner: Word, vid: u32) -> Option<u64> {
    let absent = plain(ABSENT, vid, outer.rest);
    let any = plain(ANY_PRIORITY, ANY_VID, 0);
    let any_inner = plain(ANY_PRIORITY, ANY_VID, inner.rest);
    let is_one = outer.priority == ABSENT;
    if is_one && inner.is_any() {
        return Some(key_of(absent, plain(DEFAULT, vid, inner.rest)));
    }
    if is_one && inner.priority == DEFAULT {
        return Some(key_of(absent, any_inner));
    }
    if outer.priority == DEFAULT {
        return Some(key_of(any, any_inner));
    }
    if outer.is_any() && inner.is_any() {
        let default = plain(DEFAULT, vid, outer.rest);
        return Some(key_of(default, plain(DEFAULT, vid, inner.rest)));
    }
    None
}

/// The one key that admits the same frames by all fields.
fn whole(key: u64, vid: u32) -> Option<u64> {
    let (outer, inner) = words_of(key);
    if inner.priority == ABSENT {
        let absent = plain(ABSENT, vid, outer.rest);
        return Some(key_of(absent, plain(ABSENT, vid, inner.rest)));
    }
    default_or_filters(outer, inner, vid)
}

/// Whether a word is the filter of a tag.
fn is_filter(word: Word) -> bool {
    word.priority <= ANY_PRIORITY
}

/// One key for each priority of the outer tag, or of the inner one, where a key admits any.
fn by_priority(key: u64, is_outer: bool) -> Option<Keys> {
    let (outer, inner) = words_of(key);
    let split = if is_outer { outer } else { inner };
    if split.priority != ANY_PRIORITY || !is_outer && outer.priority == DEFAULT {
        return None;
    }
    let mut keys = Keys::new();
    for priority in 0..8u32 {
        let one = Word { priority, ..split };
        let key = if is_outer {
            key_of(one, inner)
        } else {
            key_of(outer, one)
        };
        let _ = keys.try_push(key);
    }
    Some(keys)
}

/// The codes of TPID/DE that together stand for one: that of 0x8100 and that of the input TPID are the same where this is 0x8100, and the latter
/// is split by the drop eligible indicator.
const SAME_TPIDS: [(u32, &[u32]); 4] = [(4, &[5]), (5, &[4]), (4, &[6, 7]), (5, &[6, 7])];

/// The keys with other codes of TPID/DE in the outer tag, or in the inner one.
fn by_tpid(key: u64, is_outer: bool, way: usize) -> Option<Keys> {
    let (outer, inner) = words_of(key);
    let split = if is_outer { outer } else { inner };
    let (from, to) = SAME_TPIDS.get(way)?;
    if !is_filter(split) || split.tpid != *from || !is_filter(inner) {
        return None;
    }
    let mut keys = Keys::new();
    for tpid in to.iter() {
        let one = Word {
            tpid: *tpid,
            ..split
        };
        let key = if is_outer {
            key_of(one, inner)
        } else {
            key_of(outer, one)
        };
        let _ = keys.try_push(key);
    }
    Some(keys)
}

/// How many ways there are to say a key otherwise.
pub(crate) const WAYS: usize = 12;

/// Other keys that together admit the frames that a key admits, by one of the ways, if there are any.
pub(crate) fn others_of(key: u64, way: usize) -> Option<Keys> {
    let keys = match way {
        0 | 1 => {
            let vid = if way == 0 { ANY_VID } else { 0 };
            let mut keys = Keys::new();
            let _ = keys.try_push(whole(key, vid)?);
            keys
        }
        2 => by_priority(key, false)?,
        3 => by_priority(key, true)?,
        4..=7 => by_tpid(key, false, way.saturating_sub(4))?,
        _ => by_tpid(key, true, way.saturating_sub(8))?,
    };
    if keys.contains(&key) {
        return None;
    }
    Some(keys)
}
