//! What words ask of the tags of a frame.
use crate::asked::check_alone;
use crate::tag::{GROUPS, TagAsked};
use text_words::{Mistake, Word};

/// What words in parentheses ask of a tag, and the column of the word that these belong to.
type Group = (usize, TagAsked);

/// In place of the one tag of a frame asked for otherwise, or twice.
pub(crate) const ONE_TAG: &str = "the one tag of a frame is its inner one, and is asked once";

/// What words ask of the tags of a frame: of the outer and of the inner one in parentheses, and of the only one without them too.
#[derive(Clone, Copy)]
pub struct TagsAsked {
    /// What is asked of the only tag without parentheses.
    pub only: TagAsked,
    outer: Option<Group>,
    inner: Option<Group>,
}

impl TagsAsked {
    /// An entry asks nothing yet.
    pub(crate) const OF_ENTRY: TagsAsked = TagsAsked {
        only: TagAsked::OF_ENTRY,
        outer: None,
        inner: None,
    };

    /// An expectation asks nothing yet.
    pub const OF_EXPECTATION: TagsAsked = TagsAsked {
        only: TagAsked::OF_EXPECTATION,
        outer: None,
        inner: None,
    };

    /// The column of `outer(..)`, if it is there.
    pub(crate) fn outer_at(&self) -> Option<usize> {
        self.outer.map(|group| group.0)
    }

    /// The column of a word that asks something of a tag, if one does.
    pub(crate) fn first(&self) -> Option<usize> {
        self.only
            .first()
            .or(self.outer_at())
            .or(self.inner.map(|group| group.0))
    }

    /// What is asked of the outer tag.
    pub fn outer(&self) -> TagAsked {
        self.outer.map_or(self.only.nothing(), |group| group.1)
    }

    /// What is asked of the inner tag in parentheses.
    pub(crate) fn inner(&self) -> TagAsked {
        self.inner.map_or(self.only.nothing(), |group| group.1)
    }

    /// What is asked of the inner tag, which the only one is: in parentheses or without them, but not both.
    pub fn inner_or_only<'a>(&self) -> Result<TagAsked, Mistake<'a>> {
        if self.only.first().is_none() {
            return Ok(self.inner());
        }
        check_alone(self.inner.map(|group| group.0), ONE_TAG)?;
        Ok(self.only)
    }

    /// Puts what is asked of the tag of this name, `outer` or `inner`.
    pub fn put<'a>(&mut self, name: Word<'a>, tag: TagAsked) -> Result<(), Mistake<'a>> {
        let group = (name.column, tag);
        if name.one_of(GROUPS)? == 0 {
            name.put_into(&mut self.outer, group)
        } else {
            name.put_into(&mut self.inner, group)
        }
    }
}
