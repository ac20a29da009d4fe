//! Rows: what is asked of the fields of a frame, and the class of the frames for which it is the first that asks nothing else.
ghost use Rattle.std.specs.Prelude.{◌≡◌, None, slice_index_or};
ghost use Rattle.frame_rows.specs.Row.{asks_by, asks_of, asks_of_none, asks_of_one, asks_of_two, keep, tags_of};

use crate::ask::Ask;
use crate::class::Use;
use crate::field::{FIELD_COUNT, Field, LONG, Values};
use crate::source::{DscpSource, Source};
use frame_meaning::Reason;
use vlan_rule::{EthertypeFilter, Filter, Retag, TagFilter};

/// How the frames of a row end.
#[derive(Clone, Copy, Debug, PartialEq, Eq)]
pub enum Ends {
    /// They are dropped, for this reason.
    Dropped(Reason),
    /// As the mapper says for the priority of this source.
    ByPriority(Source),
}

/// What is asked of each field of a frame, and the class of the frames for which it is the first row that asks nothing else.
#[derive(Clone, Copy, Debug, PartialEq, Eq)]
pub struct Row {
    /// What the port's table uses for its frames.
    pub used: Use,
    /// How its frames end.
    pub ends: Ends,
    /// What it asks of each field, in the order of `Field::ALL`.
    pub asks: [Ask; FIELD_COUNT],
    /// How many tags its frames are read with, if they can be read.
    pub tags: u8,
    /// How their tags change where they leave.
    pub retag: Retag,
    /// The DSCP that gives an added tag its priority, if one does.
    pub marking: Option<DscpSource>,
}

/// The tags stay as they are.
pub(crate) const KEEP: Retag = Retag {
    remove: 0,
    outer: None,
    inner: None,
};

impl Row {
    ghost use Rattle.std.specs.Prelude.{◌≡◌};
    ghost use Rattle.frame_rows.specs.Row.{ask_at, first_cut_row, named_by, row_admits, row_marks, row_reads, runt_row, second_cut_row};
    ghost use Rattle.frame_rows.specs.Alike.{is_alike, row_reads_all};

    /// Whether the value of a field is as the row asks.
    pub fn admits(&self, field: Field, value: u16) -> bool
        ensures { result ≡ row_admits self.now field value }
    {
        self.asks[field.place()].admits(value)
    }

    /// The value that the row names for a field.
    pub fn named(&self, field: Field) -> Option<u16>
        ensures { result ≡ named_by (ask_at self.now field) }
    {
        match self.asks[field.place()] {
            Ask::Exactly(value) => Some(value),
            _ => None,
        }
    }

    /// What the ending of its frames depends on in a field, where it has this value and the fields before it those.
    pub(crate) fn reads(&self, values: &Values, field: Field, value: u16) -> u16
        ensures { result ≡ row_reads self.now values.now field value }
    {
        match &self.ends {
            Ends::Dropped(_) => 0,
            Ends::ByPriority(source) => source.reads(values, field, value),
        }
    }

    /// What the priorities of added tags depend on in a field, where it has this value and the fields before it those.
    pub(crate) fn marks(&self, values: &Values, field: Field, value: u16) -> u16
        ensures { result ≡ row_marks self.now values.now field value }
    {
        match &self.marking {
            None => 0,
            Some(source) => source.reads(values, field, value),
        }
    }

    /// Whether it doesn't tell two values of a field apart: it admits both, its frames end alike and have added tags of one
    /// priority, or it admits neither.
    pub fn is_alike(&self, values: &Values, field: Field, one: u16, other: u16) -> bool
        ensures { result ≡ is_alike values.now field one other self.now }
    {
        match (self.admits(field, one), self.admits(field, other)) {
            (true, true) => {
                self.reads(values, field, one) == self.reads(values, field, other)
                    && self.marks(values, field, one) == self.marks(values, field, other)
            }
            (false, false) => true,
            _ => false,
        }
    }

    /// Whether the ending of its frames, or the priority of an added tag, depends on each value of a field that isn't a type or
    /// the length.
    pub fn reads_all(&self, field: Field) -> bool
        ensures { result ≡ row_reads_all field self.now }
    {
        let marked = match &self.marking {
            None => false,
            Some(source) => source.reads_all(field),
        };
        match &self.ends {
            Ends::Dropped(_) => marked,
            Ends::ByPriority(source) => source.reads_all(field) || marked,
        }
    }

    /// The row of frames that end within their addresses or type.
    pub(crate) fn runt() -> Row
        ensures { result ≡ runt_row }
    {
        let types = [Ask::Any; 3];
        let asks = asks_by(Ask::Between(0, 13), types, &TagFilter::ANY, &TagFilter::ANY);
        unread(Reason::Runt, asks)
    }

    /// The row of frames that end within a first tag.
    pub(crate) fn first_cut(input: u16) -> Row
        ensures { result ≡ first_cut_row input }
    {
        let types = [tag_type(&TagFilter::ANY, input), Ask::Any, Ask::Any];
        let asks = asks_by(
            Ask::Between(14, 17),
            types,
            &TagFilter::ANY,
            &TagFilter::ANY,
        );
        unread(Reason::CutTag, asks)
    }

    /// The row of frames that end within a second tag.
    pub(crate) fn second_cut(input: u16) -> Row
        ensures { result ≡ second_cut_row input }
    {
        let tag = tag_type(&TagFilter::ANY, input);
        let types = [tag, tag, Ask::Any];
        let asks = asks_by(
            Ask::Between(18, 21),
            types,
            &TagFilter::ANY,
            &TagFilter::ANY,
        );
        unread(Reason::CutTag, asks)
    }
}

/// The row of frames that can't be read.
fn unread(reason: Reason, asks: [Ask; FIELD_COUNT]) -> Row
    ensures used { result.used ≡ Use.Unread }
    ensures ends { result.ends ≡ Ends.Dropped reason }
    ensures asks { result.asks ≡ asks }
    ensures tags { result.tags ≡ 0 }
    ensures retag { result.retag ≡ keep }
    ensures marking { result.marking ≡ None }
{
    Row {
        used: Use::Unread,
        ends: Ends::Dropped(reason),
        asks,
        tags: 0,
        retag: KEEP,
        marking: None,
    }
}

/// How many tags the frames of a filter have.
pub(crate) fn tag_count(filter: &Filter) -> u8
    ensures { result ≡ tags_of filter.now }
{
    match filter {
        Filter::NoTag => 0,
        Filter::OneTagDefault | Filter::OneTag(_) => 1,
        Filter::TwoTagDefault | Filter::TwoTag { .. } => 2,
    }
}

/// What a filter asks of a frame at a port with this input TPID, and this filter of the type behind the tags.
pub(crate) fn asks_of(filter: &Filter, ethertype: EthertypeFilter, input: u16) -> [Ask; FIELD_COUNT]
    ensures { result ≡ asks_of filter.now ethertype input }
{
    match filter {
        Filter::NoTag => asks_of_none(ethertype, input),
        Filter::OneTagDefault => asks_of_one(&TagFilter::ANY, ethertype, input),
        Filter::OneTag(tag) => asks_of_one(tag, ethertype, input),
        Filter::TwoTagDefault => asks_of_two(&TagFilter::ANY, &TagFilter::ANY, ethertype, input),
        Filter::TwoTag { outer, inner } => asks_of_two(outer, inner, ethertype, input),
    }
}

/// What is asked of frames without a tag.
fn asks_of_none(filter: EthertypeFilter, input: u16) -> [Ask; FIELD_COUNT]
    ensures { result ≡ asks_of_none filter input }
{
    let types = [Ask::NoTagType { input, filter }, Ask::Any, Ask::Any];
    asks_by(
        Ask::Between(14, LONG),
        types,
        &TagFilter::ANY,
        &TagFilter::ANY,
    )
}

/// What is asked of frames with one tag.
fn asks_of_one(tag: &TagFilter, filter: EthertypeFilter, input: u16) -> [Ask; FIELD_COUNT]
    ensures { result ≡ asks_of_one tag.now filter input }
{
    let types = [
        tag_type(tag, input),
        Ask::NoTagType { input, filter },
        Ask::Any,
    ];
    asks_by(Ask::Between(18, LONG), types, tag, &TagFilter::ANY)
}

/// What is asked of frames with two tags.
fn asks_of_two(
    outer: &TagFilter,
    inner: &TagFilter,
    filter: EthertypeFilter,
    input: u16,
) -> [Ask; FIELD_COUNT]
    ensures { result ≡ asks_of_two outer.now inner.now filter input }
{
    let types = [
        tag_type(outer, input),
        tag_type(inner, input),
        Ask::Ethertype(filter),
    ];
    asks_by(Ask::Between(22, LONG), types, outer, inner)
}

/// What a filter asks of the type of a tag.
fn tag_type(tag: &TagFilter, input: u16) -> Ask
    ensures { result ≡ Ask.TagType input tag.now.tpid }
{
    Ask::TagType {
        input,
        filter: tag.tpid,
    }
}

/// What is asked of the length, the types, and the first and the second tag.
fn asks_by(
    length: Ask,
    types: [Ask; 3],
    first: &TagFilter,
    second: &TagFilter,
) -> [Ask; FIELD_COUNT]
    ensures { result ≡ asks_by length
        (slice_index_or types 0 Ask.Any) (slice_index_or types 1 Ask.Any) (slice_index_or types 2 Ask.Any)
        first.now second.now }
{
    [
        length,
        types[0],
        types[1],
        types[2],
        Ask::vid(first.vid),
        Ask::vid(second.vid),
        Ask::Any,
        Ask::priority(first.priority),
        Ask::priority(second.priority),
        Ask::eligible(first.tpid),
        Ask::eligible(second.tpid),
    ]
}
