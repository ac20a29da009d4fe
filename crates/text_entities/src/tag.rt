//! A tag of a frame in words.
use std::fmt;
use tag_view::Tag;

/// A tag of a frame in words: `priority 3, DEI 0, VID 100, TPID 0x8100`.
#[derive(Clone, Copy)]
pub struct TagWords<'a>(pub &'a Tag);

impl fmt::Display for TagWords<'_> {
    fn fmt<W: fmt::Write>(&self, f: &mut fmt::Formatter<W>) -> fmt::Result {
        let tag = self.0;
        let dei = u8::from(tag.dei());
        write!(
            f,
            "priority {}, DEI {dei}, VID {}, TPID 0x{:04x}",
            tag.pcp(),
            tag.vid(),
            tag.tpid()
        )
    }
}
