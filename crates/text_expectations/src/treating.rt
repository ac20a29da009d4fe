//! With which tags frames are to leave, in words.
use frame_expectation::{WantedEnding, WantedRetag, WantedTag, WantedTreatment};
use std::alloc::AllocError;
use text_rules::{
    ADDED, Added, AddedAsked, Asked, DROPPED, GROUPS, Side, TAG_WORDS, check_alone, read_count,
    rule_at,
};
use text_words::{Mistake, Mistakes, Word};

/// The words behind the arrow: those of an ending, which stand first, and those of a treatment.
const WORDS: &[&str] = &[
    "any",
    "leave",
    "drop",
    "gem",
    "unchanged",
    "remove",
    "outer",
    "inner",
];

/// Those of an ending.
const ENDINGS: &[&str] = &["any", "leave", "drop", "gem"];

/// What the words of a treatment ask so far.
#[derive(Clone, Copy)]
pub(crate) struct TreatmentAsked {
    /// The column of `unchanged`.
    unchanged: Option<usize>,
    /// The column of the first word of what changes.
    changes: Option<usize>,
    remove: Option<u8>,
    outer: Option<WantedTag>,
    inner: Option<WantedTag>,
}

/// The tag that is wanted. Words say no other than one that can be.
fn wanted_tag<'a>(name: Word<'a>, added: Added) -> Result<WantedTag, Mistake<'a>> {
    let wanted = WantedTag::new(added.tag, added.tpid);
    wanted.ok_or(rule_at(name.column, "no tag can be so"))
}

impl TreatmentAsked {
    /// Nothing is asked yet.
    pub(crate) const NEW: TreatmentAsked = TreatmentAsked {
        unchanged: None,
        changes: None,
        remove: None,
        outer: None,
        inner: None,
    };

    /// What it asks in all of frames that end so, or what is wrong with it.
    pub(crate) fn treatment<'a>(
        &self,
        ending: WantedEnding,
    ) -> Result<WantedTreatment, Mistake<'a>> {
        if let WantedEnding::Dropped | WantedEnding::DroppedFor(_) = ending {
            check_alone(self.unchanged.or(self.changes), DROPPED)?;
        }
        if self.unchanged.is_some() {
            check_alone(
                self.changes,
                "an unchanged frame keeps its tags, so nothing stands beside unchanged",
            )?;
            return Ok(WantedTreatment::Unchanged);
        }
        if self.changes.is_none() {
            return Ok(WantedTreatment::Any);
        }
        Ok(WantedTreatment::Retag(WantedRetag {
            remove: self.remove.unwrap_or(0),
            outer: self.outer,
            inner: self.inner,
        }))
    }
}

impl Asked for TreatmentAsked {
    type Tag = AddedAsked;

    fn take_own<'a>(&mut self, word: Word<'a>) -> Result<(), Mistake<'a>> {
        if word.is("unchanged") {
            return word.put_into(&mut self.unchanged, word.column);
        }
        self.changes = self.changes.or(Some(word.column));
        match word.split_value() {
            Some((name, value)) if name.is("remove") => {
                name.put_into(&mut self.remove, read_count(value)?)
            }
            Some((name, _)) if name.place_in(TAG_WORDS).is_some() => {
                Err(rule_at(name.column, ADDED))
            }
            _ if word.place_in(ENDINGS).is_some() => Err(rule_at(
                word.column,
                "how a frame ends stands once, directly behind ->",
            )),
            _ => Err(word.name().no_such(WORDS)),
        }
    }

    fn read_tag(inside: Word<'_>, mistakes: &mut Mistakes) -> Result<AddedAsked, AllocError> {
        let mut asked = AddedAsked::OF_EXPECTATION;
        asked.take_within(inside, mistakes)?;
        Ok(asked)
    }

    fn put_tag<'a>(&mut self, name: Word<'a>, tag: AddedAsked) -> Result<(), Mistake<'a>> {
        self.changes = self.changes.or(Some(name.column));
        if name.one_of(GROUPS)? == 0 {
            name.put_into(&mut self.outer, wanted_tag(name, tag.tag(Side::Outer)?)?)
        } else {
            name.put_into(&mut self.inner, wanted_tag(name, tag.tag(Side::Inner)?)?)
        }
    }
}
