//! The coverage of a history as JSON.
use crate::lines::tried_in;
use bench_coverage::Stretch;
use json::Writer;
use std::alloc::{AllocError, Global};
use std::io::Write;
use text_classes::put_example;
use text_entities::{JsonText, put_number};
use text_writing::TextFault;

/// Puts the members of a stretch: `port`; `version`, its first; `seen`, how many of its `classes` were tried; and `unseen`, an object for each
/// that wasn't.
fn put_stretch(alloc: Global, object: &mut Writer, stretch: &Stretch) -> Result<(), AllocError> {
    put_number(object, "port", u64::from(stretch.port))?;
    put_number(object, "version", stretch.version as u64)?;
    put_number(object, "seen", tried_in(stretch) as u64)?;
    put_number(object, "classes", stretch.classes.len() as u64)?;
    object.key("unseen")?;
    object.begin_array()?;
    for (example, is_tried) in stretch.classes.iter().zip(stretch.tried.iter()) {
        if !*is_tried {
            object.begin_object()?;
            put_example(alloc, object, example)?;
            object.end_object()?;
        }
    }
    object.end_array()
}

/// Writes the coverage of a history as the last member of an object of JSON (RFC 8259), `coverage`, and the object's end: an object for each
/// stretch, on a line of its own.
pub(crate) fn write_coverage_json<W: Write>(
    alloc: Global,
    stretches: &[Stretch],
    writer: &mut W,
) -> Result<(), TextFault> {
    let mut text = JsonText::new(alloc);
    text.begin(writer, "\"coverage\":")?;
    for stretch in stretches {
        let mut object = text.object()?;
        put_stretch(alloc, &mut object, stretch)?;
        text.write(writer, object)?;
    }
    text.end(writer, "}")
}
