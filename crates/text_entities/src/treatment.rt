//! The treatment of a rule in words.
use crate::field::FieldWords;
use std::fmt::{self, Display};
use tag_view::CUSTOMER_TPID;
use vlan_rule::{
    AddedTag, EligibleSource, PrioritySource, Retag, TpidSource, Treatment, VidSource,
};

/// What a rule makes of a frame's tags, in words: `remove 1 tag, add outer tag (priority from inner, VID 200, TPID 0x8100,
/// DEI 0)`.
#[derive(Clone, Copy)]
pub struct TreatmentWords<'a>(pub &'a Treatment);

impl fmt::Display for TreatmentWords<'_> {
    fn fmt<W: fmt::Write>(&self, f: &mut fmt::Formatter<W>) -> fmt::Result {
        match self.0 {
            Treatment::Discard => f.write_str("drop the frame"),
            Treatment::Retag(retag) => RetagWords(retag).fmt(f),
        }
    }
}

/// How the tags change.
#[derive(Clone, Copy)]
struct RetagWords<'a>(&'a Retag);

impl fmt::Display for RetagWords<'_> {
    fn fmt<W: fmt::Write>(&self, f: &mut fmt::Formatter<W>) -> fmt::Result {
        let retag = self.0;
        if leaves_tags(retag) {
            return f.write_str("leave the tags as they are");
        }
        let removed = RemovedWords(retag.remove);
        let outer = NewTagWords("outer", &retag.outer);
        let inner = NewTagWords("inner", &retag.inner);
        write!(f, "{removed}{outer}{inner}")
    }
}

/// Whether the tags stay as they are.
fn leaves_tags(retag: &Retag) -> bool {
    retag.remove == 0 && retag.outer.is_none() && retag.inner.is_none()
}

/// How many tags go.
#[derive(Clone, Copy)]
struct RemovedWords(u8);

impl fmt::Display for RemovedWords {
    fn fmt<W: fmt::Write>(&self, f: &mut fmt::Formatter<W>) -> fmt::Result {
        let words = match self.0 {
            0 => "remove no tag",
            1 => "remove 1 tag",
            _ => return write!(f, "remove {} tags", self.0),
        };
        f.write_str(words)
    }
}

/// The tag that is added at a place, or nothing where none is.
#[derive(Clone, Copy)]
struct NewTagWords<'a>(&'static str, &'a Option<AddedTag>);

impl fmt::Display for NewTagWords<'_> {
    fn fmt<W: fmt::Write>(&self, f: &mut fmt::Formatter<W>) -> fmt::Result {
        match self.1 {
            Some(tag) => {
                let tag = AddedTagWords(tag);
                write!(f, ", add {} tag ({tag})", self.0)
            }
            None => Ok(()),
        }
    }
}

/// Where the parts of an added tag come from, in words: `priority from inner, VID 200, TPID 0x8100, DEI 0`.
#[derive(Clone, Copy)]
pub struct AddedTagWords<'a>(pub &'a AddedTag);

impl fmt::Display for AddedTagWords<'_> {
    fn fmt<W: fmt::Write>(&self, f: &mut fmt::Formatter<W>) -> fmt::Result {
        let priority = priority_words(self.0.priority);
        let vid = vid_words(self.0.vid);
        let tpid = tpid_words(self.0.tpid);
        let eligible = eligible_words(self.0.eligible);
        write!(
            f,
            "priority {priority}, VID {vid}, TPID {tpid}, DEI {eligible}"
        )
    }
}

fn priority_words(source: PrioritySource) -> FieldWords {
    match source {
        PrioritySource::Fixed(priority) => FieldWords::Number(u16::from(priority)),
        PrioritySource::Inner => FieldWords::Words("from inner"),
        PrioritySource::Outer => FieldWords::Words("from outer"),
        PrioritySource::Dscp => FieldWords::Words("from DSCP"),
    }
}

fn vid_words(source: VidSource) -> FieldWords {
    match source {
        VidSource::Fixed(vid) => FieldWords::Number(vid),
        VidSource::Inner => FieldWords::Words("from inner"),
        VidSource::Outer => FieldWords::Words("from outer"),
    }
}

fn tpid_words(source: TpidSource) -> FieldWords {
    match source {
        TpidSource::Inner => FieldWords::Words("from inner"),
        TpidSource::Outer => FieldWords::Words("from outer"),
        TpidSource::Output => FieldWords::Words("output"),
        TpidSource::Standard => FieldWords::Type(CUSTOMER_TPID),
    }
}

fn eligible_words(source: EligibleSource) -> &'static str {
    match source {
        EligibleSource::Inner => "from inner",
        EligibleSource::Outer => "from outer",
        EligibleSource::Clear => "0",
        EligibleSource::Set => "1",
    }
}
