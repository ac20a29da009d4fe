//! Of which frames an expectation speaks, in words.
use frame_expectation::{FrameFilter, TagCondition, TypeCondition};
use std::alloc::AllocError;
use text_rules::{
    Asked, TAG_WORDS, TagAsked, TagsAsked, TypeSaid, check_alone, read_count, read_type, rule_at,
};
use text_words::{Mistake, Mistakes, Word, number_at_most};
use vlan_rule::EthertypeFilter;

/// The words of a filter.
const WORDS: &[&str] = &[
    "any", "tags", "pcp", "vid", "tpid", "dei", "outer", "inner", "type", "dscp", "->",
];

/// Those of them that speak of the whole frame.
const OWN_WORDS: &[&str] = &["tags", "type", "dscp"];

/// What the words of a filter ask so far.
#[derive(Clone, Copy)]
pub(crate) struct FilterAsked {
    /// The column of `any`.
    any: Option<usize>,
    /// The column of the first other word.
    first: Option<usize>,
    tags: Option<u8>,
    asked: TagsAsked,
    ethertype: Option<TypeSaid>,
    dscp: Option<u8>,
}

/// What words ask of a tag.
fn condition_of(asked: &TagAsked) -> TagCondition {
    TagCondition {
        priority: asked.priority(),
        eligible: asked.eligible(),
        vid: asked.vid(),
        tpid: asked.tpid(),
    }
}

/// What words ask of the type.
fn type_of(said: Option<TypeSaid>) -> TypeCondition {
    match said {
        Some(TypeSaid::Number(ethertype)) => TypeCondition::Exactly(ethertype),
        Some(TypeSaid::Class(class)) => TypeCondition::Class(class),
        None => TypeCondition::Class(EthertypeFilter::Any),
    }
}

impl FilterAsked {
    /// Nothing is asked yet.
    pub(crate) const NEW: FilterAsked = FilterAsked {
        any: None,
        first: None,
        tags: None,
        asked: TagsAsked::OF_EXPECTATION,
        ethertype: None,
        dscp: None,
    };

    /// What it asks in all, or what is wrong with it. Its words end in front of the column `end`.
    pub(crate) fn filter<'a>(&self, end: usize) -> Result<FrameFilter, Mistake<'a>> {
        if self.any.is_none() && self.first.is_none() {
            return Err(rule_at(
                end,
                "a filter says which frames are meant, as in tags=1 vid=100; any means all that can be read",
            ));
        }
        if self.any.is_some() {
            check_alone(
                self.first,
                "any means all frames that can be read, so nothing stands beside it",
            )?;
        }
        Ok(FrameFilter {
            tags: self.tags,
            outer: condition_of(&self.asked.outer()),
            inner: condition_of(&self.inner_tag()?),
            ethertype: type_of(self.ethertype),
            dscp: self.dscp,
        })
    }

    /// What is asked of the inner tag. Without parentheses it is asked of the only one alone.
    fn inner_tag<'a>(&self) -> Result<TagAsked, Mistake<'a>> {
        match self.asked.only.first() {
            Some(first) if self.tags != Some(1) => Err(rule_at(
                first,
                "this asks for the one tag of a frame, beside tags=1; else say which tag: outer(..) or inner(..)",
            )),
            _ => self.asked.inner_or_only(),
        }
    }
}

impl Asked for FilterAsked {
    type Tag = TagAsked;

    fn take_own<'a>(&mut self, word: Word<'a>) -> Result<(), Mistake<'a>> {
        if word.is("any") {
            return word.put_into(&mut self.any, word.column);
        }
        self.first = self.first.or(Some(word.column));
        let Some((name, value)) = word.split_value() else {
            return Err(no_such(word));
        };
        if let Some(place) = name.place_in(TAG_WORDS) {
            return self.asked.only.take(place, name, value);
        }
        match name.place_in(OWN_WORDS) {
            Some(0) => name.put_into(&mut self.tags, read_count(value)?),
            Some(1) => name.put_into(&mut self.ethertype, read_type(value)?),
            Some(_) => name.put_into(&mut self.dscp, read_dscp(value)?),
            None => Err(no_such(name)),
        }
    }

    fn read_tag(inside: Word<'_>, mistakes: &mut Mistakes) -> Result<TagAsked, AllocError> {
        let mut asked = TagAsked::OF_EXPECTATION;
        asked.take_within(inside, mistakes)?;
        Ok(asked)
    }

    fn put_tag<'a>(&mut self, name: Word<'a>, tag: TagAsked) -> Result<(), Mistake<'a>> {
        self.first = self.first.or(Some(name.column));
        self.asked.put(name, tag)
    }
}

/// What is wrong with a word that a filter hasn't.
fn no_such(name: Word<'_>) -> Mistake<'_> {
    if name.is("dst") || name.is("src") {
        return rule_at(
            name.column,
            "no expectation asks for an address, but for the tags, the type and the DSCP",
        );
    }
    name.no_such(WORDS)
}

fn read_dscp(word: Word<'_>) -> Result<u8, Mistake<'_>> {
    let dscp = number_at_most(word, "a DSCP", 63)?;
    Ok(u8::try_from(dscp).unwrap_or(0))
}
