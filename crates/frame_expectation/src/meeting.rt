//! Whether what becomes of a frame is as is wanted.
ghost use Rattle.std.specs.Prelude.{◌≡◌, ◌≤◌, ◌++◌, length};
ghost use Rattle.std.specs.Str.{bytes_eq};
ghost use Rattle.tag_view.specs.Tag.{tag_bytes};
ghost use Rattle.tag_view.specs.Dscp.{dscp_of};
ghost use Rattle.frame_expectation.specs.Wanted.{added_wanted, settings_by, tag_wanted, tags_alike, tags_wanted};

use crate::wanted::{WantedEnding, WantedRetag, WantedTag, WantedTreatment};
use arrayvec::ArrayVec;
use frame_meaning::{PortTable, Reason};
use tag_view::{CUSTOMER_TPID, DscpMap, FrameView, Tag};
use treatment::added_tag;
use vlan_rule::TableSettings;

impl WantedEnding {
    ghost use Rattle.std.specs.Prelude.{◌≡◌};
    ghost use Rattle.tag_view.specs.Frame.{Reading};
    ghost use Rattle.frame_meaning.specs.declared.verdict.Verdict.TheVariants.{Forward as leaves, Drop as dropped};
    ghost use Rattle.frame_expectation.specs.Wanted.{ends_as};

    /// Whether a frame is to leave through a GEM port, or may.
    pub fn is_leaving(&self, gem: u16) -> bool
        ensures { (frame : Reading) → result ≡ ends_as self.now (leaves gem frame) }
    {
        match *self {
            WantedEnding::Any | WantedEnding::Leave => true,
            WantedEnding::Dropped | WantedEnding::DroppedFor(_) => false,
            WantedEnding::Gem(wanted) => gem == wanted,
        }
    }

    /// Whether a frame is to be dropped for a reason, or may.
    pub fn is_dropping(&self, reason: Reason) -> bool
        ensures { result ≡ ends_as self.now (dropped reason) }
    {
        match *self {
            WantedEnding::Any | WantedEnding::Dropped => true,
            WantedEnding::DroppedFor(wanted) => reason.code() == wanted.code(),
            WantedEnding::Leave | WantedEnding::Gem(_) => false,
        }
    }
}

impl WantedTreatment {
    ghost use Rattle.std.specs.Prelude.{◌≡◌, ℕ, List};
    ghost use Rattle.vlan_rule.specs.declared.settings.TableSettings.{TableSettings};
    ghost use Rattle.tag_view.specs.Frame.{Reading};
    ghost use Rattle.frame_meaning.specs.declared.reason.Reason.{Reason};
    ghost use Rattle.frame_meaning.specs.declared.verdict.Verdict.TheVariants.{Drop as dropped};
    ghost use Rattle.frame_expectation.specs.Wanted.{bytes_wanted, leaves_with};

    /// Whether a frame may be dropped, whatever its bytes: none are wanted.
    pub(crate) fn is_any(&self) -> bool
        ensures { (settings : TableSettings) (bytes : List ℕ) (frame : Reading) (reason : Reason)
            → result ≡ leaves_with (bytes_wanted self.now settings bytes frame) (dropped reason) }
    {
        match self {
            WantedTreatment::Any => true,
            WantedTreatment::Unchanged | WantedTreatment::Retag(_) => false,
        }
    }
}

impl WantedTag {
    /// The tag, of a frame that comes in at a port whose tags are added with these settings.
    fn tag(&self, settings: &TableSettings, frame: &FrameView<'_>) -> Tag
        ensures { result ≡ tag_wanted self.now settings.now frame.now.tags (dscp_of frame.now.rest) }
    {
        let tag = added_tag(&self.added, settings, frame);
        match self.tpid {
            None => tag,
            Some(tpid) => Tag::new(tpid, tag.pcp(), tag.dei(), tag.vid()),
        }
    }
}

impl WantedRetag {
    /// The tags with which a frame is to leave.
    pub(crate) fn tags(&self, settings: &TableSettings, frame: &FrameView<'_>) -> ArrayVec<Tag, 4>
        ensures { result.items ≡ tags_wanted self.now settings.now frame.now.tags (dscp_of frame.now.rest) }
    {
        let mut tags = self.added(settings, frame);
        let received = frame.tags();
        let (_, left) = received.split_at(usize::from(self.remove).min(received.len()));
        for tag in left {
            tags.push(*tag);
        }
        tags
    }

    /// The tags that are added, the outer one first.
    fn added(&self, settings: &TableSettings, frame: &FrameView<'_>) -> ArrayVec<Tag, 4>
        ensures items { result.items
            ≡ added_wanted self.now.outer settings.now frame.now.tags (dscp_of frame.now.rest)
            ++ added_wanted self.now.inner settings.now frame.now.tags (dscp_of frame.now.rest) }
        ensures two { length result.items ≤ 2 }
    {
        let mut tags = ArrayVec::new();
        if let Some(outer) = &self.outer {
            tags.push(outer.tag(settings, frame));
        }
        if let Some(inner) = &self.inner {
            tags.push(inner.tag(settings, frame));
        }
        tags
    }
}

/// The settings that tags are added with at a port with this table. Without one they are those that a table has after Create.
pub(crate) fn settings_of(table: &Option<PortTable>) -> TableSettings
    ensures { result ≡ settings_by table.now }
{
    match table {
        Some(table) => table.settings,
        None => TableSettings {
            input_tpid: CUSTOMER_TPID,
            output_tpid: CUSTOMER_TPID,
            dscp_map: DscpMap([0; 24]),
        },
    }
}

/// Whether two lists of tags have the same bytes.
pub(crate) fn are_alike(tags: &[Tag], others: &[Tag]) -> bool
    ensures { result ≡ tags_alike tags.now others.now }
{
    if tags.len() != others.len() {
        return false;
    }
    for place in 0..tags.len() {
        if !is_alike(&tags[place], &others[place]) {
            return false;
        }
    }
    true
}

/// Whether two tags have the same bytes.
fn is_alike(tag: &Tag, other: &Tag) -> bool
    ensures { result ≡ bytes_eq (tag_bytes tag.now) (tag_bytes other.now) }
{
    tag.bytes() == other.bytes()
}
