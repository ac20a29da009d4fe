//! The filter of an entry in words.
use crate::asked::{Asked, check_alone, rule_at};
use crate::ethertype::read_filter;
use crate::instead::instead_of;
use crate::tag::{TAG_WORDS, TagAsked};
use crate::tags::{ONE_TAG, TagsAsked};
use std::alloc::AllocError;
use text_words::{Mistake, Mistakes, Word, number_at_most};
use vlan_rule::{EthertypeFilter, Filter, TagFilter, TpidFilter};

/// The words of a filter.
const WORDS: &[&str] = &[
    "tags",
    "default",
    "predefined",
    "pcp",
    "vid",
    "tpid",
    "dei",
    "outer",
    "inner",
    "type",
];

/// Those of them that speak of all tags.
const OWN_WORDS: &[&str] = &["tags", "type"];

/// What an entry asks of a tag, or that the drop eligible indicator doesn't go with the TPID.
fn filter_of<'a>(tag: &TagAsked) -> Result<TagFilter, Mistake<'a>> {
    let Some(tpid) = tpid_filter(tag.tpid_filter(), tag.eligible()) else {
        return Err(rule_at(
            tag.eligible_at(),
            "dei is filtered by beside tpid=input alone",
        ));
    };
    Ok(TagFilter {
        priority: tag.priority(),
        vid: tag.vid(),
        tpid,
    })
}

/// The filter of a TPID and of a drop eligible indicator, which goes with the input TPID alone.
fn tpid_filter(tpid: TpidFilter, eligible: Option<bool>) -> Option<TpidFilter> {
    match (tpid, eligible) {
        (tpid, None) => Some(tpid),
        (TpidFilter::Input, Some(false)) => Some(TpidFilter::InputNotEligible),
        (TpidFilter::Input, Some(true)) => Some(TpidFilter::InputEligible),
        _ => None,
    }
}

/// What the words of a filter ask so far. Of a word without a value the column is kept.
#[derive(Clone, Copy)]
pub(crate) struct FilterAsked {
    tags: Option<u8>,
    default: Option<usize>,
    predefined: Option<usize>,
    asked: TagsAsked,
    ethertype: Option<EthertypeFilter>,
    /// The column of the word that asks for the type.
    ethertype_at: Option<usize>,
}

impl FilterAsked {
    /// Nothing is asked yet.
    pub(crate) const NEW: FilterAsked = FilterAsked {
        tags: None,
        default: None,
        predefined: None,
        asked: TagsAsked::OF_ENTRY,
        ethertype: None,
        ethertype_at: None,
    };

    /// What the type behind the tags must be.
    pub(crate) fn ethertype(&self) -> EthertypeFilter {
        self.ethertype.unwrap_or(EthertypeFilter::Any)
    }

    /// Whether it asks for a predefined entry.
    pub(crate) fn is_predefined(&self) -> bool {
        self.predefined.is_some()
    }

    /// What it asks in all, or what is wrong with it. Its words end in front of the column `end`.
    pub(crate) fn filter<'a>(&self, end: usize) -> Result<Filter, Mistake<'a>> {
        let Some(tags) = self.tags else {
            return Err(rule_at(
                end,
                "a filter says how many tags a frame has: tags=0, tags=1 or tags=2",
            ));
        };
        if self.is_predefined() {
            return self.predefined(tags);
        }
        match (tags, self.default) {
            (0, default) => {
                check_alone(
                    default.or(self.asked.first()),
                    "without a tag there is nothing but the type to filter by",
                )?;
                Ok(Filter::NoTag)
            }
            (_, Some(_)) => {
                check_alone(
                    self.asked.first(),
                    "a default filters by the number of tags and the type alone",
                )?;
                Ok(default_of(tags))
            }
            (1, None) => self.one_tag(),
            (_, None) => self.two_tags(),
        }
    }

    /// The filter of the predefined entry for so many tags.
    fn predefined<'a>(&self, tags: u8) -> Result<Filter, Mistake<'a>> {
        let other = self.default.or(self.asked.first()).or(self.ethertype_at);
        check_alone(
            other,
            "a predefined entry is named by the number of tags alone",
        )?;
        Ok(match tags {
            0 => Filter::NoTag,
            _ => default_of(tags),
        })
    }

    fn one_tag<'a>(&self) -> Result<Filter, Mistake<'a>> {
        check_alone(self.asked.outer_at(), ONE_TAG)?;
        Ok(Filter::OneTag(filter_of(&self.asked.inner_or_only()?)?))
    }

    fn two_tags<'a>(&self) -> Result<Filter, Mistake<'a>> {
        check_alone(
            self.asked.only.first(),
            "of two tags, say which: outer(..) or inner(..)",
        )?;
        Ok(Filter::TwoTag {
            outer: filter_of(&self.asked.outer())?,
            inner: filter_of(&self.asked.inner())?,
        })
    }
}

/// The default of one tag or two.
fn default_of(tags: u8) -> Filter {
    match tags {
        1 => Filter::OneTagDefault,
        _ => Filter::TwoTagDefault,
    }
}

impl Asked for FilterAsked {
    type Tag = TagAsked;

    fn take_own<'a>(&mut self, word: Word<'a>) -> Result<(), Mistake<'a>> {
        if word.is("default") {
            return word.put_into(&mut self.default, word.column);
        }
        if word.is("predefined") {
            return word.put_into(&mut self.predefined, word.column);
        }
        let Some((name, value)) = word.split_value() else {
            return Err(word.no_such(WORDS));
        };
        if let Some(place) = name.place_in(TAG_WORDS) {
            return self.asked.only.take(place, name, value);
        }
        match name.place_in(OWN_WORDS) {
            Some(0) => name.put_into(&mut self.tags, read_count(value)?),
            Some(_) => {
                self.ethertype_at = Some(name.column);
                name.put_into(&mut self.ethertype, read_filter(value)?)
            }
            None => Err(no_such(name)),
        }
    }

    fn read_tag(inside: Word<'_>, mistakes: &mut Mistakes) -> Result<TagAsked, AllocError> {
        let mut asked = TagAsked::OF_ENTRY;
        asked.take_within(inside, mistakes)?;
        Ok(asked)
    }

    fn put_tag<'a>(&mut self, name: Word<'a>, tag: TagAsked) -> Result<(), Mistake<'a>> {
        self.asked.put(name, tag)
    }
}

/// What is wrong with a word that a filter hasn't: what can be said instead, if something can.
fn no_such(name: Word<'_>) -> Mistake<'_> {
    match instead_of(name) {
        Some(words) => rule_at(name.column, words),
        None => name.no_such(WORDS),
    }
}

/// How many tags there must be.
pub fn read_count(word: Word<'_>) -> Result<u8, Mistake<'_>> {
    let count = number_at_most(word, "a number of tags", 2)?;
    Ok(u8::try_from(count).unwrap_or(0))
}
