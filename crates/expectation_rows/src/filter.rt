//! The rows of a filter.
ghost use Rattle.std.specs.Prelude.{◌≡◌};
ghost use Rattle.vlan_rule.specs.declared.treatment.Treatment.TheVariants.{Retag as retagged};
ghost use Rattle.treatment.specs.Compiled.{adds_dscp, is_from_dscp};
ghost use Rattle.frame_rows.specs.Ask.{priority_ask, vid_ask};
ghost use Rattle.frame_rows.specs.Rows.{marking_of};
ghost use Rattle.expectation_rows.specs.Rows.{eligible_ask, last_row, none_asks, one_asks, third_ask, two_asks, type_ask};
ghost use Rattle.frame_expectation.specs.Filter.{is_number};

use crate::only::only_map;
use crate::wanted::{KEEP, retag_for};
use frame_expectation::{FrameFilter, TypeCondition, WantedTreatment};
use frame_meaning::Reason;
use frame_rows::{Ask, DscpSource, Ending, Ends, FIELD_COUNT, LONG, Row, Source, Use};
use tag_view::{CUSTOMER_TPID, is_tag_type};
use vlan_rule::{AddedTag, PriorityFilter, PrioritySource, Retag, TableSettings, VidFilter};

/// What is asked of the frames of a port with these settings, and with which tags they are to leave.
#[derive(Clone, Copy, Debug)]
pub(crate) struct Asked {
    /// Which frames are spoken of.
    pub(crate) filter: FrameFilter,
    /// With which bytes they are to leave.
    pub(crate) treatment: WantedTreatment,
    /// The settings of the port's table.
    pub(crate) settings: TableSettings,
}

/// The entry that a row of a filter uses, for its frames to be told from all others.
pub const ADMITTED: Use = Use::Entry(0);

/// The priority of admitted frames whose bytes are to be compared, or don't count.
const COMPARED: u8 = 1;

/// The priority of admitted frames that are unlike all that a port does.
const UNLIKE: u8 = 2;

/// How frames of each priority end: admitted ones through a GEM port, one of those that the port's own rows have or another.
pub(crate) const ENDINGS: [Ending; 8] = [
    Ending::Dropped(Reason::NoMapper),
    Ending::Gem(0),
    Ending::Gem(2),
    Ending::Dropped(Reason::NoMapper),
    Ending::Dropped(Reason::NoMapper),
    Ending::Dropped(Reason::NoMapper),
    Ending::Dropped(Reason::NoMapper),
    Ending::Dropped(Reason::NoMapper),
];

/// The row of all frames.
pub(crate) fn last_row() -> Row
    ensures { result ≡ last_row }
{
    Row {
        used: Use::NoEntry,
        ends: Ends::Dropped(Reason::NoMapper),
        asks: [Ask::Any; FIELD_COUNT],
        tags: 0,
        retag: KEEP,
        marking: None,
    }
}

impl Asked {
    ghost use Rattle.std.specs.Prelude.{◌≡◌, ◌<◌};
    ghost use Rattle.expectation_rows.specs.Rows.{filter_row, may_have_none, may_have_one, may_have_two, may_stand, none_row, one_row, source_by, two_row};

    /// Whether it speaks of frames without a tag.
    pub(crate) fn may_have_none(&self) -> bool
        ensures { result ≡ may_have_none self.now }
    {
        is_count(self.filter.tags, 0)
            && (self.filter.outer.asks_nothing()
                && (self.filter.inner.asks_nothing() && self.may_stand()))
    }

    /// Whether it speaks of frames with one tag of this TPID.
    pub(crate) fn may_have_one(&self, tpid: u16) -> bool
        ensures { result ≡ may_have_one self.now tpid }
    {
        is_count(self.filter.tags, 1)
            && (self.filter.outer.asks_nothing()
                && (is_number(self.filter.inner.tpid, tpid) && self.may_stand()))
    }

    /// Whether it speaks of frames with two tags of these TPIDs.
    pub(crate) fn may_have_two(&self, outer: u16, inner: u16) -> bool
        ensures { result ≡ may_have_two self.now outer inner }
    {
        is_count(self.filter.tags, 2)
            && (is_number(self.filter.outer.tpid, outer)
                && is_number(self.filter.inner.tpid, inner))
    }

    /// Whether a type that is asked for may stand behind fewer than two tags: there is none that begins a tag.
    fn may_stand(&self) -> bool
        ensures { result ≡ may_stand self.now.settings.input_tpid self.now.filter.ethertype }
    {
        match self.filter.ethertype {
            TypeCondition::Class(_) => true,
            TypeCondition::Exactly(only) => !is_tag_type(only, self.settings.input_tpid),
        }
    }

    /// The row of its frames without a tag.
    pub(crate) fn none_row(&self) -> Row
        ensures { result ≡ none_row self.now }
    {
        let asks = none_asks(&self.filter, self.settings.input_tpid);
        self.row(CUSTOMER_TPID, CUSTOMER_TPID, 0, asks)
    }

    /// The row of its frames with one tag of this TPID.
    pub(crate) fn one_row(&self, tpid: u16) -> Row
        ensures { result ≡ one_row self.now tpid }
    {
        let asks = one_asks(&self.filter, self.settings.input_tpid, tpid);
        self.row(tpid, tpid, 1, asks)
    }

    /// The row of its frames with two tags of these TPIDs.
    pub(crate) fn two_row(&self, outer: u16, inner: u16) -> Row
        ensures { result ≡ two_row self.now outer inner }
    {
        let asks = two_asks(&self.filter, outer, inner);
        self.row(outer, inner, 2, asks)
    }

    /// A row that asks this of frames with so many tags, of which the outer and the inner one, or what stands for one that is missing, have
    /// these TPIDs.
    fn row(&self, outer: u16, inner: u16, tags: u8, asks: [Ask; FIELD_COUNT]) -> Row
        ensures { result ≡ filter_row self.now outer inner tags asks }
    {
        let (priority, retag) = match retag_for(&self.treatment, &self.settings, outer, inner) {
            Some(retag) => (COMPARED, retag),
            None => (UNLIKE, KEEP),
        };
        Row {
            used: ADMITTED,
            ends: Ends::ByPriority(self.source(tags, priority)),
            asks,
            tags,
            retag,
            marking: marking_of(&retag, &self.settings, tags),
        }
    }

    /// The priority of its frames with so many tags: this one, under 8, where they have the DSCP that is asked for, and else 0.
    fn source(&self, tags: u8, priority: u8) -> Source
        requires { priority < 8 }
        ensures { result ≡ source_by self.now.filter.dscp tags priority }
    {
        match self.filter.dscp {
            None => Source::Fixed(priority),
            Some(dscp) => Source::Dscp(DscpSource {
                tags,
                map: only_map(dscp, priority),
                without: 0,
            }),
        }
    }
}

/// What is asked of frames without a tag.
fn none_asks(filter: &FrameFilter, input: u16) -> [Ask; FIELD_COUNT]
    ensures { result ≡ none_asks filter.now input }
{
    [
        Ask::Between(14, LONG),
        type_ask(filter.ethertype, input),
        Ask::Any,
        Ask::Any,
        Ask::Any,
        Ask::Any,
        Ask::Any,
        Ask::Any,
        Ask::Any,
        Ask::Any,
        Ask::Any,
    ]
}

/// What is asked of frames with one tag of this TPID.
fn one_asks(filter: &FrameFilter, input: u16, tpid: u16) -> [Ask; FIELD_COUNT]
    ensures { result ≡ one_asks filter.now input tpid }
{
    [
        Ask::Between(18, LONG),
        Ask::Exactly(tpid),
        type_ask(filter.ethertype, input),
        Ask::Any,
        vid_ask(filter.inner.vid),
        Ask::Any,
        Ask::Any,
        priority_ask(filter.inner.priority),
        Ask::Any,
        eligible_ask(filter.inner.eligible),
        Ask::Any,
    ]
}

/// What is asked of frames with two tags of these TPIDs.
fn two_asks(filter: &FrameFilter, outer: u16, inner: u16) -> [Ask; FIELD_COUNT]
    ensures { result ≡ two_asks filter.now outer inner }
{
    [
        Ask::Between(22, LONG),
        Ask::Exactly(outer),
        Ask::Exactly(inner),
        third_ask(filter.ethertype),
        vid_ask(filter.outer.vid),
        vid_ask(filter.inner.vid),
        Ask::Any,
        priority_ask(filter.outer.priority),
        priority_ask(filter.inner.priority),
        eligible_ask(filter.outer.eligible),
        eligible_ask(filter.inner.eligible),
    ]
}

/// What is asked of the type behind fewer than two tags.
fn type_ask(condition: TypeCondition, input: u16) -> Ask
    ensures { result ≡ type_ask input condition }
{
    match condition {
        TypeCondition::Class(filter) => Ask::NoTagType { input, filter },
        TypeCondition::Exactly(only) => Ask::Exactly(only),
    }
}

/// What is asked of the type behind two tags.
fn third_ask(condition: TypeCondition) -> Ask
    ensures { result ≡ third_ask condition }
{
    match condition {
        TypeCondition::Class(filter) => Ask::Ethertype(filter),
        TypeCondition::Exactly(only) => Ask::Exactly(only),
    }
}

fn vid_ask(filter: VidFilter) -> Ask
    ensures { result ≡ vid_ask filter }
{
    match filter {
        VidFilter::Any => Ask::Any,
        VidFilter::Exactly(vid) => Ask::Exactly(vid),
    }
}

fn priority_ask(filter: PriorityFilter) -> Ask
    ensures { result ≡ priority_ask filter }
{
    match filter {
        PriorityFilter::Any => Ask::Any,
        PriorityFilter::Exactly(priority) => Ask::Exactly(u16::from(priority)),
    }
}

/// What is asked of the drop eligible indicator, 0 or 1.
fn eligible_ask(eligible: Option<bool>) -> Ask
    ensures { result ≡ eligible_ask eligible }
{
    match eligible {
        None => Ask::Any,
        Some(true) => Ask::Exactly(1),
        Some(false) => Ask::Exactly(0),
    }
}

/// Whether a number is the one that is asked for, if one is.
fn is_number(asked: Option<u16>, found: u16) -> bool
    ensures { result ≡ is_number asked found }
{
    match asked {
        None => true,
        Some(only) => found == only,
    }
}

/// Whether a number of tags is the one that is asked for, if one is.
fn is_count(asked: Option<u8>, found: u8) -> bool
    ensures { result ≡ is_number asked found }
{
    match asked {
        None => true,
        Some(only) => found == only,
    }
}

/// The DSCP that gives an added tag its priority, behind so many tags.
fn marking_of(retag: &Retag, settings: &TableSettings, tags: u8) -> Option<DscpSource>
    ensures { result ≡ marking_of (retagged retag.now) settings.now tags }
{
    match adds_dscp(&retag.outer) || adds_dscp(&retag.inner) {
        false => None,
        true => Some(DscpSource {
            tags,
            map: settings.dscp_map,
            without: 0,
        }),
    }
}

fn adds_dscp(added: &Option<AddedTag>) -> bool
    ensures { result ≡ adds_dscp added.now }
{
    match added {
        None => false,
        Some(added) => is_from_dscp(added.priority),
    }
}

fn is_from_dscp(source: PrioritySource) -> bool
    ensures { result ≡ is_from_dscp source }
{
    match source {
        PrioritySource::Dscp => true,
        _ => false,
    }
}
