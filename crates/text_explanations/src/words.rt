//! The parts of an explanation in words.
use explain::{Mismatch, TagField, TagOrigin};
use managed_entity::{Class, descriptions_of};
use std::fmt;
use text_entities::{AddedTagWords, EntityWords, value_word};

/// The place of the direction among the attributes of a GEM port network CTP.
const DIRECTION: usize = 2;

/// Which way a GEM port carries frames (ITU-T G.988, clause 9.2.3).
pub(crate) fn direction_word(direction: u8) -> Option<&'static str> {
    let description = descriptions_of(Class::GemPort.number()).get(DIRECTION)?;
    value_word(description, &[direction])
}

/// A direction by its number and its word: `direction 3 (both)`, or `no direction`.
#[derive(Clone, Copy)]
pub(crate) struct DirectionWords(pub(crate) u8);

impl fmt::Display for DirectionWords {
    fn fmt<W: fmt::Write>(&self, f: &mut fmt::Formatter<W>) -> fmt::Result {
        match direction_word(self.0) {
            Some(word) => write!(f, "direction {} ({word})", self.0),
            None => f.write_str("no direction"),
        }
    }
}

/// An instance of a class in words.
pub(crate) fn entity_of(class: Class, instance: u16) -> EntityWords {
    let class = class.number();
    EntityWords { class, instance }
}

/// The field of an entry by which it doesn't admit a frame, in words.
#[derive(Clone, Copy)]
pub struct MismatchWords(pub Mismatch);

impl fmt::Display for MismatchWords {
    fn fmt<W: fmt::Write>(&self, f: &mut fmt::Formatter<W>) -> fmt::Result {
        match self.0 {
            Mismatch::TagCount => write!(f, "the number of tags"),
            Mismatch::Outer(field) => write!(f, "the outer {}", field_words(field)),
            Mismatch::Inner(field) => write!(f, "the inner {}", field_words(field)),
            Mismatch::Ethertype => write!(f, "the Ethertype"),
        }
    }
}

fn field_words(field: TagField) -> &'static str {
    match field {
        TagField::Priority => "priority",
        TagField::Vid => "VID",
        TagField::Tpid => "TPID or DEI",
    }
}

/// What that field is called in JSON.
pub(crate) fn mismatch_name(field: Mismatch) -> &'static str {
    match field {
        Mismatch::TagCount => "tags",
        Mismatch::Outer(TagField::Priority) => "outer_priority",
        Mismatch::Outer(TagField::Vid) => "outer_vid",
        Mismatch::Outer(TagField::Tpid) => "outer_tpid",
        Mismatch::Inner(TagField::Priority) => "inner_priority",
        Mismatch::Inner(TagField::Vid) => "inner_vid",
        Mismatch::Inner(TagField::Tpid) => "inner_tpid",
        Mismatch::Ethertype => "type",
    }
}

/// Where a tag that a frame leaves with comes from, in words: `added (priority from inner, VID 200, TPID 0x8100, DEI 0)`, or
/// `received tag 0`, the outermost.
#[derive(Clone, Copy)]
pub struct OriginWords<'a>(pub &'a TagOrigin);

impl fmt::Display for OriginWords<'_> {
    fn fmt<W: fmt::Write>(&self, f: &mut fmt::Formatter<W>) -> fmt::Result {
        match self.0 {
            TagOrigin::Added(tag) => {
                let tag = AddedTagWords(tag);
                write!(f, "added ({tag})")
            }
            TagOrigin::Received(place) => write!(f, "received tag {place}"),
        }
    }
}
