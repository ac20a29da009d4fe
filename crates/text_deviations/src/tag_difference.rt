//! Where the tags of a frame that was seen differ from the model's.
use crate::shown_frame::{ShownFrame, tag_place};
use bench_history::Extent;
use std::fmt;
use tag_view::{CUSTOMER_TPID, Tag, is_tag_type};

/// How many places are looked at for tags: one more than the model has tags at most.
const PLACES: usize = 5;

/// What tells a frame's tags from the model's.
#[derive(Clone, Copy)]
pub(crate) enum TagsDifference {
    TooMany,
    Missing,
    /// A tag, counted from 0, of so many has another field.
    Other {
        number: usize,
        count: usize,
        field: FieldDifference,
    },
}

impl fmt::Display for TagsDifference {
    fn fmt<W: fmt::Write>(&self, f: &mut fmt::Formatter<W>) -> fmt::Result {
        match *self {
            TagsDifference::TooMany => f.write_str("a tag too many"),
            TagsDifference::Missing => f.write_str("a tag missing"),
            TagsDifference::Other {
                number,
                count,
                field,
            } => {
                write_tag(f, number, count)?;
                write!(f, ", {field}")
            }
        }
    }
}

/// Writes which tag of so many is meant: the outer, the inner, or its number from 1.
fn write_tag<W: fmt::Write>(f: &mut fmt::Formatter<W>, number: usize, count: usize) -> fmt::Result {
    if count < 2 {
        return f.write_str("tag");
    }
    match number {
        0 => f.write_str("outer tag"),
        1 => f.write_str("inner tag"),
        _ => {
            let ordinal = number.saturating_add(1);
            write!(f, "tag {ordinal}")
        }
    }
}

/// A field of a tag as it was seen, and the model's.
#[derive(Clone, Copy)]
pub(crate) enum FieldDifference {
    Tpid { seen: u16, model: u16 },
    Pcp { seen: u8, model: u8 },
    Dei { seen: bool, model: bool },
    Vid { seen: u16, model: u16 },
}

impl fmt::Display for FieldDifference {
    fn fmt<W: fmt::Write>(&self, f: &mut fmt::Formatter<W>) -> fmt::Result {
        match *self {
            FieldDifference::Tpid { seen, model } => {
                write!(f, "TPID 0x{seen:04x} for 0x{model:04x}")
            }
            FieldDifference::Pcp { seen, model } => write!(f, "PCP {seen} for {model}"),
            FieldDifference::Dei { seen, model } => {
                let (seen, model) = (u8::from(seen), u8::from(model));
                write!(f, "DEI {seen} for {model}")
            }
            FieldDifference::Vid { seen, model } => write!(f, "VID {seen} for {model}"),
        }
    }
}

/// The first field that differs, in the order of a tag's bytes.
fn field_difference(seen: &Tag, model: &Tag) -> Option<FieldDifference> {
    let (tpid, pcp, dei, vid) = (model.tpid(), model.pcp(), model.dei(), model.vid());
    if seen.tpid() != tpid {
        return Some(FieldDifference::Tpid {
            seen: seen.tpid(),
            model: tpid,
        });
    }
    if seen.pcp() != pcp {
        return Some(FieldDifference::Pcp {
            seen: seen.pcp(),
            model: pcp,
        });
    }
    if seen.dei() != dei {
        return Some(FieldDifference::Dei {
            seen: seen.dei(),
            model: dei,
        });
    }
    if seen.vid() != vid {
        return Some(FieldDifference::Vid {
            seen: seen.vid(),
            model: vid,
        });
    }
    None
}

/// Whether a type begins a tag: that of a customer's or a service's tag, or that of one of the model's.
fn begins_tag(tpid: u16, tags: &[Tag]) -> bool {
    for tag in tags {
        if tag.tpid() == tpid {
            return true;
        }
    }
    is_tag_type(tpid, CUSTOMER_TPID)
}

/// Whether a tag stands at a place, counted from 0, or None where a front ends before that.
fn has_tag(frame: &ShownFrame<'_>, number: usize, tags: &[Tag]) -> Option<bool> {
    match (frame.type_at(number), frame.extent) {
        (Some(tpid), _) => Some(begins_tag(tpid, tags)),
        (None, Extent::Whole) => Some(false),
        (None, Extent::Front) => None,
    }
}

/// How many tags the model's frame has, those among the bytes that it passes on with them.
fn count_tags(model: &ShownFrame<'_>) -> usize {
    for number in 0..PLACES {
        if has_tag(model, number, model.tags()) != Some(true) {
            return number;
        }
    }
    PLACES
}

/// Whether behind so many tags the same stands in both, as far as both are known: then they have as many tags, of whatever type.
fn are_same_behind(seen: &ShownFrame<'_>, model: &ShownFrame<'_>, count: usize) -> bool {
    let place = tag_place(count);
    seen.type_at(count).is_some()
        && seen.may_be_as_long_as(model)
        && seen.difference(model, place, model.len()).is_none()
}

/// Whether a frame has more tags than the model's, or fewer.
fn number_difference(seen: &ShownFrame<'_>, model: &ShownFrame<'_>) -> Option<TagsDifference> {
    let tags = model.tags();
    for number in 0..PLACES {
        match (has_tag(seen, number, tags), has_tag(model, number, tags)) {
            (Some(true), Some(true)) => {}
            (Some(true), Some(false)) => return Some(TagsDifference::TooMany),
            (Some(false), Some(true)) => return Some(TagsDifference::Missing),
            _ => return None,
        }
    }
    None
}

/// What tells the tags of a frame that was seen from the model's: how many there are, and then the outermost that differs.
pub(crate) fn tags_difference(
    seen: &ShownFrame<'_>,
    model: &ShownFrame<'_>,
) -> Option<TagsDifference> {
    let count = count_tags(model);
    if !are_same_behind(seen, model, count)
        && let Some(difference) = number_difference(seen, model)
    {
        return Some(difference);
    }
    for number in 0..count {
        if let (Some(tag), Some(wanted)) = (seen.tag_at(number), model.tag_at(number))
            && let Some(field) = field_difference(&tag, &wanted)
        {
            return Some(TagsDifference::Other {
                number,
                count,
                field,
            });
        }
    }
    None
}

/// The type behind the tags of a frame that was seen, where it is known.
pub(crate) fn type_behind_tags(frame: &ShownFrame<'_>) -> Option<u16> {
    for number in 0..PLACES {
        let tpid = frame.type_at(number)?;
        if !begins_tag(tpid, &[]) {
            return Some(tpid);
        }
    }
    None
}
