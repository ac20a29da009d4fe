//! A frame as members of an object of JSON.
use json::Writer;
use std::alloc::{AllocError, Global};
use tag_view::{FrameView, Tag};
use text_entities::{HexWords, put_number, put_words};

/// Puts a frame as it is read: `addresses` and `rest` in hexadecimal, `tags`, an array of objects, outermost first, `ethertype`, and `dscp`
/// where it has one.
pub fn put_view_json(
    alloc: Global,
    object: &mut Writer,
    frame: &FrameView<'_>,
) -> Result<(), AllocError> {
    put_words(alloc, object, "addresses", &HexWords(frame.addresses()))?;
    object.key("tags")?;
    object.begin_array()?;
    for tag in frame.tags() {
        object.begin_object()?;
        put_tag_json(object, tag)?;
        object.end_object()?;
    }
    object.end_array()?;
    put_number(object, "ethertype", u64::from(frame.ethertype()))?;
    if let Some(dscp) = frame.dscp() {
        put_number(object, "dscp", u64::from(dscp))?;
    }
    put_words(alloc, object, "rest", &HexWords(frame.rest()))
}

/// Puts the fields of a tag: `priority`, `dei`, `vid` and `tpid`.
pub fn put_tag_json(object: &mut Writer, tag: &Tag) -> Result<(), AllocError> {
    put_number(object, "priority", u64::from(tag.pcp()))?;
    put_number(object, "dei", u64::from(tag.dei()))?;
    put_number(object, "vid", u64::from(tag.vid()))?;
    put_number(object, "tpid", u64::from(tag.tpid()))
}
