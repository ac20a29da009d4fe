//! The treatment of an entry in words.
use crate::added::{AddedAsked, Side};
use crate::asked::{Asked, check_alone, rule_at};
use crate::filter::read_count;
use crate::instead::{ADDED, DROPPED};
use crate::tag::{GROUPS, TAG_WORDS};
use std::alloc::AllocError;
use text_words::{Mistake, Mistakes, Word};
use vlan_rule::{AddedTag, Retag, Treatment};

/// The words of a treatment.
const WORDS: &[&str] = &["drop", "remove", "outer", "inner"];

/// What the words of a treatment ask so far.
#[derive(Clone, Copy)]
pub(crate) struct TreatmentAsked {
    /// The column of `drop`.
    drops: Option<usize>,
    /// The column of a word of what changes.
    changes: Option<usize>,
    remove: Option<u8>,
    outer: Option<AddedTag>,
    inner: Option<AddedTag>,
}

impl TreatmentAsked {
    /// Nothing is asked yet.
    pub(crate) const NEW: TreatmentAsked = TreatmentAsked {
        drops: None,
        changes: None,
        remove: None,
        outer: None,
        inner: None,
    };

    /// What it asks in all, or what is wrong with it.
    pub(crate) fn treatment<'a>(&self) -> Result<Treatment, Mistake<'a>> {
        if self.drops.is_none() {
            return Ok(Treatment::Retag(Retag {
                remove: self.remove.unwrap_or(0),
                outer: self.outer,
                inner: self.inner,
            }));
        }
        check_alone(self.changes, DROPPED)?;
        Ok(Treatment::Discard)
    }
}

impl Asked for TreatmentAsked {
    type Tag = AddedAsked;

    fn take_own<'a>(&mut self, word: Word<'a>) -> Result<(), Mistake<'a>> {
        if word.is("drop") {
            return word.put_into(&mut self.drops, word.column);
        }
        self.changes = Some(word.column);
        match word.split_value() {
            Some((name, value)) if name.is("remove") => {
                name.put_into(&mut self.remove, read_count(value)?)
            }
            Some((name, _)) if name.place_in(TAG_WORDS).is_some() => {
                Err(rule_at(name.column, ADDED))
            }
            _ => Err(word.name().no_such(WORDS)),
        }
    }

    fn read_tag(inside: Word<'_>, mistakes: &mut Mistakes) -> Result<AddedAsked, AllocError> {
        let mut asked = AddedAsked::OF_ENTRY;
        asked.take_within(inside, mistakes)?;
        Ok(asked)
    }

    fn put_tag<'a>(&mut self, name: Word<'a>, tag: AddedAsked) -> Result<(), Mistake<'a>> {
        self.changes = Some(name.column);
        if name.one_of(GROUPS)? == 0 {
            name.put_into(&mut self.outer, tag.tag(Side::Outer)?.tag)
        } else {
            name.put_into(&mut self.inner, tag.tag(Side::Inner)?.tag)
        }
    }
}
