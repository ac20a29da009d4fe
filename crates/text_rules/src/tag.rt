//! What words ask of one tag.
use crate::asked::rule_at;
use crate::instead::{
    DSCP, DSCP_EXPECTED, FILTERED_TPIDS, ONE_VID, ONE_VID_EXPECTED, TPID_EXPECTED, is_hexadecimal,
    is_several,
};
use crate::subject::Subject;
use std::alloc::AllocError;
use text_words::{Mistake, Mistakes, Why, Word, Words, number_at_most, read_tpid};
use vlan_rule::{PriorityFilter, TpidFilter, VidFilter};

/// The words within `outer(..)` and `inner(..)`.
pub const TAG_WORDS: &[&str] = &["pcp", "vid", "tpid", "dei"];

/// The two tags of a filter or a treatment.
pub const GROUPS: &[&str] = &["outer", "inner"];

/// What a TPID may be filtered by.
const TPIDS: &[&str] = &["any", "input", "8100", "0x8100"];

/// What a drop eligible indicator may be filtered by.
const BITS: &[&str] = &["0", "1"];

/// What a drop eligible indicator may be expected to be.
const BITS_EXPECTED: &[&str] = &["any", "0", "1"];

/// The greatest VID that is filtered by.
const MOST_VID: u16 = 4095;

/// The TPID that words ask for.
#[derive(Clone, Copy)]
enum TpidAsked {
    /// As an entry filters by it.
    Filter(TpidFilter),
    /// This one.
    Number(u16),
}

/// What words ask of one tag.
#[derive(Clone, Copy)]
pub struct TagAsked {
    subject: Subject,
    priority: Option<PriorityFilter>,
    vid: Option<VidFilter>,
    tpid: Option<TpidAsked>,
    eligible: Option<Option<bool>>,
    /// The column of the word that asks for the drop eligible indicator.
    eligible_at: usize,
    /// The column of the first word, if there is one.
    first: Option<usize>,
}

impl TagAsked {
    /// An entry asks nothing yet.
    pub(crate) const OF_ENTRY: TagAsked = TagAsked {
        subject: Subject::Entry,
        priority: None,
        vid: None,
        tpid: None,
        eligible: None,
        eligible_at: 0,
        first: None,
    };

    /// An expectation asks nothing yet.
    pub const OF_EXPECTATION: TagAsked = TagAsked {
        subject: Subject::Expectation,
        priority: None,
        vid: None,
        tpid: None,
        eligible: None,
        eligible_at: 0,
        first: None,
    };

    /// Nothing of what this one speaks of.
    pub(crate) fn nothing(&self) -> TagAsked {
        match self.subject {
            Subject::Entry => TagAsked::OF_ENTRY,
            Subject::Expectation => TagAsked::OF_EXPECTATION,
        }
    }

    /// The column of the first word, if there is one.
    pub fn first(&self) -> Option<usize> {
        self.first
    }

    /// The column of the word that asks for the drop eligible indicator, or 0 where none does.
    pub(crate) fn eligible_at(&self) -> usize {
        self.eligible_at
    }

    /// What the priority must be.
    pub fn priority(&self) -> PriorityFilter {
        self.priority.unwrap_or(PriorityFilter::Any)
    }

    /// What the VID must be.
    pub fn vid(&self) -> VidFilter {
        self.vid.unwrap_or(VidFilter::Any)
    }

    /// What the drop eligible indicator must be, or None where it may be either.
    pub fn eligible(&self) -> Option<bool> {
        self.eligible.unwrap_or(None)
    }

    /// What the TPID must be, as an entry filters by it.
    pub(crate) fn tpid_filter(&self) -> TpidFilter {
        match self.tpid {
            Some(TpidAsked::Filter(filter)) => filter,
            Some(TpidAsked::Number(_)) | None => TpidFilter::Any,
        }
    }

    /// The number that the TPID must be, or None where it may be any.
    pub fn tpid(&self) -> Option<u16> {
        match self.tpid {
            Some(TpidAsked::Number(tpid)) => Some(tpid),
            Some(TpidAsked::Filter(_)) | None => None,
        }
    }

    /// Takes the value of one of the [`TAG_WORDS`], by the place of that.
    pub fn take<'a>(
        &mut self,
        place: usize,
        name: Word<'a>,
        value: Word<'a>,
    ) -> Result<(), Mistake<'a>> {
        self.first = self.first.or(Some(name.column));
        match place {
            0 => name.put_into(&mut self.priority, read_priority(value, self.subject)?),
            1 => name.put_into(&mut self.vid, read_vid(value, self.subject)?),
            2 => name.put_into(&mut self.tpid, read_asked_tpid(value, self.subject)?),
            _ => {
                self.eligible_at = name.column;
                name.put_into(&mut self.eligible, read_eligible(value, self.subject)?)
            }
        }
    }

    /// Takes the words in parentheses, and the mistakes among them.
    pub fn take_within(
        &mut self,
        inside: Word<'_>,
        mistakes: &mut Mistakes,
    ) -> Result<(), AllocError> {
        for word in Words::within(inside) {
            let taken = self.take_named(word);
            mistakes.take(taken)?;
        }
        Ok(())
    }

    /// Takes a word that asks something of the tag.
    fn take_named<'a>(&mut self, word: Word<'a>) -> Result<(), Mistake<'a>> {
        let Some((name, value)) = word.split_value() else {
            return Err(word.no_such(TAG_WORDS));
        };
        self.take(name.one_of(TAG_WORDS)?, name, value)
    }
}

fn read_priority(word: Word<'_>, subject: Subject) -> Result<PriorityFilter, Mistake<'_>> {
    if word.is("any") {
        return Ok(PriorityFilter::Any);
    }
    if word.is("dscp") {
        return Err(rule_at(word.column, words_by(subject, DSCP, DSCP_EXPECTED)));
    }
    let priority = number_at_most(word, "a priority", 7)?;
    Ok(PriorityFilter::Exactly(u8::try_from(priority).unwrap_or(0)))
}

fn read_vid(word: Word<'_>, subject: Subject) -> Result<VidFilter, Mistake<'_>> {
    if word.is("any") {
        return Ok(VidFilter::Any);
    }
    if is_several(word) {
        let words = words_by(subject, ONE_VID, ONE_VID_EXPECTED);
        return Err(rule_at(word.column, words));
    }
    Ok(VidFilter::Exactly(number_at_most(word, "a VID", MOST_VID)?))
}

/// The words by what is spoken of.
fn words_by(subject: Subject, entry: &'static str, expectation: &'static str) -> &'static str {
    match subject {
        Subject::Entry => entry,
        Subject::Expectation => expectation,
    }
}

fn read_asked_tpid(word: Word<'_>, subject: Subject) -> Result<TpidAsked, Mistake<'_>> {
    match subject {
        Subject::Entry => Ok(TpidAsked::Filter(read_filtered_tpid(word)?)),
        Subject::Expectation if word.is("any") => Ok(TpidAsked::Filter(TpidFilter::Any)),
        Subject::Expectation if word.is("input") => Err(rule_at(word.column, TPID_EXPECTED)),
        Subject::Expectation => Ok(TpidAsked::Number(read_tpid(word)?)),
    }
}

/// The TPID by which an entry filters.
fn read_filtered_tpid(word: Word<'_>) -> Result<TpidFilter, Mistake<'_>> {
    match word.place_in(TPIDS) {
        Some(0) => Ok(TpidFilter::Any),
        Some(1) => Ok(TpidFilter::Input),
        Some(_) => Ok(TpidFilter::Standard),
        None if is_hexadecimal(word) => Err(word.mistake(Why::Unexpected {
            found: word.text,
            expected: FILTERED_TPIDS,
        })),
        None => Err(word.no_such(TPIDS)),
    }
}

fn read_eligible(word: Word<'_>, subject: Subject) -> Result<Option<bool>, Mistake<'_>> {
    match subject {
        Subject::Entry => Ok(Some(word.one_of(BITS)? == 1)),
        Subject::Expectation => Ok(match word.one_of(BITS_EXPECTED)? {
            0 => None,
            1 => Some(false),
            _ => Some(true),
        }),
    }
}
