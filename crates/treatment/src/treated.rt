//! What becomes of a frame.
use arrayvec::ArrayVec;
use tag_view::Tag;

/// What a rule makes of a frame.
#[derive(Drop)]
pub enum Treated {
    /// It is dropped.
    Discard,
    /// It leaves with these tags, outermost first.
    Tags(ArrayVec<Tag, 4>),
}
