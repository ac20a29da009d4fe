//! A tag that an entry adds, in words.
use crate::asked::rule_at;
use crate::instead::{ADDED_TPIDS, is_hexadecimal};
use crate::subject::Subject;
use crate::tag::TAG_WORDS;
use std::alloc::AllocError;
use text_words::{Mistake, Mistakes, Why, Word, Words, number_at_most, read_number, read_tpid};
use vlan_rule::{AddedTag, EligibleSource, PrioritySource, TpidSource, VidSource};

/// What a priority may be taken from. The last is no word, since it has blanks; it is said among those that are allowed.
const PRIORITIES: &[&str] = &["inner", "outer", "dscp", "0 to 7"];

/// The received tags.
const SIDES: &[&str] = &["inner", "outer"];

/// What a TPID may be taken from.
const TPIDS: &[&str] = &["inner", "outer", "output", "8100", "0x8100"];

/// What a TPID may be taken from where a number may stand in its place.
const TPIDS_EXPECTED: &[&str] = &[
    "inner",
    "outer",
    "output",
    "four hexadecimal digits as in 8100",
];

/// What a drop eligible indicator may be taken from.
const BITS: &[&str] = &["inner", "outer", "0", "1"];

/// Which of the two tags is added. What isn't said of it is copied from the received tag of that name.
#[derive(Clone, Copy)]
pub enum Side {
    Outer,
    Inner,
}

/// The TPID that words say.
#[derive(Clone, Copy)]
enum TpidSaid {
    Source(TpidSource),
    /// This one.
    Number(u16),
}

/// What words say of a tag that is added.
#[derive(Clone, Copy)]
pub struct AddedAsked {
    subject: Subject,
    priority: Option<PrioritySource>,
    vid: Option<VidSource>,
    tpid: Option<TpidSaid>,
    eligible: Option<EligibleSource>,
    /// The column of the word that says the drop eligible indicator.
    eligible_at: usize,
}

fn read_priority(word: Word<'_>) -> Result<PrioritySource, Mistake<'_>> {
    if read_number(word.text).is_some() {
        let priority = number_at_most(word, "a priority", 7)?;
        return Ok(PrioritySource::Fixed(u8::try_from(priority).unwrap_or(0)));
    }
    Ok(match word.one_of(PRIORITIES)? {
        0 => PrioritySource::Inner,
        1 => PrioritySource::Outer,
        _ => PrioritySource::Dscp,
    })
}

fn read_vid(word: Word<'_>) -> Result<VidSource, Mistake<'_>> {
    match word.place_in(SIDES) {
        Some(0) => Ok(VidSource::Inner),
        Some(_) => Ok(VidSource::Outer),
        None => Ok(VidSource::Fixed(number_at_most(word, "a VID", 4094)?)),
    }
}

/// A tag that is added: as an entry adds it, but for a TPID that is named.
#[derive(Clone, Copy)]
pub struct Added {
    /// The tag as an entry adds it. Where a TPID is named, it is copied in this one, and doesn't count.
    pub tag: AddedTag,
    /// The TPID that is named. An entry names none: its 0x8100 is a source.
    pub tpid: Option<u16>,
}

fn read_said_tpid(word: Word<'_>, subject: Subject) -> Result<TpidSaid, Mistake<'_>> {
    match subject {
        Subject::Entry => Ok(TpidSaid::Source(read_source(word)?)),
        Subject::Expectation => match word.place_in(TPIDS_EXPECTED) {
            Some(0) => Ok(TpidSaid::Source(TpidSource::Inner)),
            Some(1) => Ok(TpidSaid::Source(TpidSource::Outer)),
            Some(2) => Ok(TpidSaid::Source(TpidSource::Output)),
            _ if is_hexadecimal(word) => Ok(TpidSaid::Number(read_tpid(word)?)),
            _ => Err(word.no_such(TPIDS_EXPECTED)),
        },
    }
}

/// The TPID that an entry gives a tag.
fn read_source(word: Word<'_>) -> Result<TpidSource, Mistake<'_>> {
    match word.place_in(TPIDS) {
        Some(0) => Ok(TpidSource::Inner),
        Some(1) => Ok(TpidSource::Outer),
        Some(2) => Ok(TpidSource::Output),
        Some(_) => Ok(TpidSource::Standard),
        None if is_hexadecimal(word) => Err(word.mistake(Why::Unexpected {
            found: word.text,
            expected: ADDED_TPIDS,
        })),
        None => Err(word.no_such(TPIDS)),
    }
}

fn read_eligible(word: Word<'_>) -> Result<EligibleSource, Mistake<'_>> {
    Ok(match word.one_of(BITS)? {
        0 => EligibleSource::Inner,
        1 => EligibleSource::Outer,
        2 => EligibleSource::Clear,
        _ => EligibleSource::Set,
    })
}

/// The drop eligible indicator that goes with a TPID where none is said.
pub(crate) fn usual_eligible(tpid: TpidSource) -> EligibleSource {
    match tpid {
        TpidSource::Inner => EligibleSource::Inner,
        TpidSource::Outer => EligibleSource::Outer,
        TpidSource::Output | TpidSource::Standard => EligibleSource::Clear,
    }
}

/// Whether a drop eligible indicator goes with a TPID: each with the output TPID, and else the usual one alone.
fn goes_with(eligible: EligibleSource, tpid: TpidSource) -> bool {
    tpid == TpidSource::Output || eligible == usual_eligible(tpid)
}

impl AddedAsked {
    /// Nothing is said yet of a tag that an entry adds.
    pub(crate) const OF_ENTRY: AddedAsked = AddedAsked {
        subject: Subject::Entry,
        priority: None,
        vid: None,
        tpid: None,
        eligible: None,
        eligible_at: 0,
    };

    /// Nothing is said yet of a tag that is expected.
    pub const OF_EXPECTATION: AddedAsked = AddedAsked {
        subject: Subject::Expectation,
        priority: None,
        vid: None,
        tpid: None,
        eligible: None,
        eligible_at: 0,
    };

    /// Takes the words in parentheses, and the mistakes among them.
    pub fn take_within(
        &mut self,
        inside: Word<'_>,
        mistakes: &mut Mistakes,
    ) -> Result<(), AllocError> {
        for word in Words::within(inside) {
            let taken = self.take(word);
            mistakes.take(taken)?;
        }
        Ok(())
    }

    /// Takes a word that says something of the tag.
    fn take<'a>(&mut self, word: Word<'a>) -> Result<(), Mistake<'a>> {
        let Some((name, value)) = word.split_value() else {
            return Err(word.no_such(TAG_WORDS));
        };
        match name.one_of(TAG_WORDS)? {
            0 => name.put_into(&mut self.priority, read_priority(value)?),
            1 => name.put_into(&mut self.vid, read_vid(value)?),
            2 => name.put_into(&mut self.tpid, read_said_tpid(value, self.subject)?),
            _ => {
                self.eligible_at = name.column;
                name.put_into(&mut self.eligible, read_eligible(value)?)
            }
        }
    }

    /// The tag. What isn't said is copied from the received tag on this side; but beside a TPID that isn't copied the drop eligible
    /// indicator is 0. Or that the indicator doesn't go with the TPID, in an entry.
    pub fn tag<'a>(&self, side: Side) -> Result<Added, Mistake<'a>> {
        let (priority, vid, copied) = match side {
            Side::Outer => (PrioritySource::Outer, VidSource::Outer, TpidSource::Outer),
            Side::Inner => (PrioritySource::Inner, VidSource::Inner, TpidSource::Inner),
        };
        let (tpid, named) = match self.tpid {
            None => (copied, None),
            Some(TpidSaid::Source(source)) => (source, None),
            Some(TpidSaid::Number(number)) => (copied, Some(number)),
        };
        let usual = match named {
            None => usual_eligible(tpid),
            Some(_) => EligibleSource::Clear,
        };
        let eligible = self.eligible.unwrap_or(usual);
        if self.subject == Subject::Entry && !goes_with(eligible, tpid) {
            return Err(rule_at(
                self.eligible_at,
                "beside tpid=8100 the dei is 0, and beside tpid=inner or tpid=outer it is that tag's",
            ));
        }
        Ok(Added {
            tag: AddedTag {
                priority: self.priority.unwrap_or(priority),
                vid: self.vid.unwrap_or(vid),
                tpid,
                eligible,
            },
            tpid: named,
        })
    }
}
