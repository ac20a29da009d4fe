//! Of which frames an expectation speaks.
ghost use Rattle.std.specs.Prelude.{◌≡◌};
ghost use Rattle.frame_expectation.specs.Filter.{asks_nothing, inner_tag, is_any_priority, is_any_vid, is_as, is_eligible, is_number, is_tag, is_there, is_type, outer_tag, tag_admits};

use tag_view::{FrameView, Tag};
use vlan_rule::{EthertypeFilter, PriorityFilter, VidFilter};

/// What a tag must be. A condition on any field admits only frames that have the tag.
#[derive(Clone, Copy, Debug, PartialEq, Eq)]
pub struct TagCondition {
    pub priority: PriorityFilter,
    /// The drop eligible indicator, or None where it may be either.
    pub eligible: Option<bool>,
    pub vid: VidFilter,
    /// The TPID, or None where it may be any that is read as a tag.
    pub tpid: Option<u16>,
}

/// What the type behind the tags that are read must be.
#[derive(Clone, Copy, Debug, PartialEq, Eq)]
pub enum TypeCondition {
    /// One of those that an entry of a table filters by, or any.
    Class(EthertypeFilter),
    /// This one.
    Exactly(u16),
}

/// Which frames are spoken of: those that can be read and that are all of this.
#[derive(Clone, Copy, Debug, PartialEq, Eq)]
pub struct FrameFilter {
    /// How many tags are read, 0 to 2, or None where it may be any number.
    pub tags: Option<u8>,
    /// What the outer of two tags must be. A frame with one tag has none.
    pub outer: TagCondition,
    /// What the inner of two tags must be, or the only one.
    pub inner: TagCondition,
    /// What the type behind the tags must be.
    pub ethertype: TypeCondition,
    /// The DSCP, under 64, or None where it may be any, and may be lacking.
    pub dscp: Option<u8>,
}

impl TagCondition {
    /// Every tag passes it, and a frame may lack the tag.
    pub const ANY: TagCondition = TagCondition {
        priority: PriorityFilter::Any,
        eligible: None,
        vid: VidFilter::Any,
        tpid: None,
    };

    /// Whether it asks nothing.
    pub fn asks_nothing(&self) -> bool
        ensures { result ≡ asks_nothing self.now }
    {
        is_any_priority(self.priority)
            && (self.eligible.is_none() && (is_any_vid(self.vid) && self.tpid.is_none()))
    }

    /// Whether a tag is as it asks.
    fn is(&self, tag: &Tag) -> bool
        ensures { result ≡ is_tag self.now tag.now }
    {
        self.priority.is(tag)
            && (is_eligible(self.eligible, tag.dei())
                && (self.vid.is(tag) && is_number(self.tpid, tag.tpid())))
    }

    /// Whether it admits a frame that has this tag, or that lacks it.
    fn admits(&self, tag: Option<Tag>) -> bool
        ensures { result ≡ tag_admits self.now tag }
    {
        match &tag {
            None => self.asks_nothing(),
            Some(tag) => self.is(tag),
        }
    }
}

impl TypeCondition {
    /// Whether a type is as it asks.
    fn is(&self, ethertype: u16) -> bool
        ensures { result ≡ is_type self.now ethertype }
    {
        match self {
            TypeCondition::Class(class) => class.is(ethertype),
            TypeCondition::Exactly(only) => ethertype == *only,
        }
    }
}

impl FrameFilter {
    /// Every frame that can be read passes it.
    pub const ANY: FrameFilter = FrameFilter {
        tags: None,
        outer: TagCondition::ANY,
        inner: TagCondition::ANY,
        ethertype: TypeCondition::Class(EthertypeFilter::Any),
        dscp: None,
    };

    /// Whether it admits a frame that was read.
    pub fn admits(&self, frame: &FrameView<'_>) -> bool
        ensures { result ≡ is_as self.now frame.now }
    {
        let tags = frame.tags();
        is_count(self.tags, tags.len())
            && (self.outer.admits(outer_tag(tags))
                && (self.inner.admits(inner_tag(tags))
                    && (self.ethertype.is(frame.ethertype()) && is_there(self.dscp, frame.dscp()))))
    }
}

fn is_any_priority(filter: PriorityFilter) -> bool
    ensures { result ≡ is_any_priority filter }
{
    match filter {
        PriorityFilter::Any => true,
        PriorityFilter::Exactly(_) => false,
    }
}

fn is_any_vid(filter: VidFilter) -> bool
    ensures { result ≡ is_any_vid filter }
{
    match filter {
        VidFilter::Any => true,
        VidFilter::Exactly(_) => false,
    }
}

/// Whether a drop eligible indicator is the one that is asked for, if one is.
fn is_eligible(asked: Option<bool>, found: bool) -> bool
    ensures { result ≡ is_eligible asked found }
{
    match asked {
        None => true,
        Some(true) => found,
        Some(false) => !found,
    }
}

/// Whether a number is the one that is asked for, if one is.
fn is_number(asked: Option<u16>, found: u16) -> bool
    ensures { result ≡ is_number asked found }
{
    match asked {
        None => true,
        Some(only) => found == only,
    }
}

/// Whether a number of tags is the one that is asked for, if one is.
fn is_count(asked: Option<u8>, found: usize) -> bool
    ensures { result ≡ is_number asked found }
{
    match asked {
        None => true,
        Some(only) => found == usize::from(only),
    }
}

/// Whether a DSCP is there and the one that is asked for, if one is.
fn is_there(asked: Option<u8>, found: Option<u8>) -> bool
    ensures { result ≡ is_there asked found }
{
    match (asked, found) {
        (None, _) => true,
        (Some(_), None) => false,
        (Some(only), Some(found)) => found == only,
    }
}

/// The outer of two tags.
fn outer_tag(tags: &[Tag]) -> Option<Tag>
    ensures { result ≡ outer_tag tags.now }
{
    match tags {
        [first, _, ..] => Some(*first),
        _ => None,
    }
}

/// The inner of two tags, or the only one.
fn inner_tag(tags: &[Tag]) -> Option<Tag>
    ensures { result ≡ inner_tag tags.now }
{
    match tags {
        [.., last] => Some(*last),
        [] => None,
    }
}
