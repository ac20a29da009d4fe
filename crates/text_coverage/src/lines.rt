//! The coverage of a history as lines.
use bench_coverage::Stretch;
use frame_classes::ClassExample;
use std::alloc::{AllocError, Global};
use std::io::Write;
use text_classes::ClassWords;
use text_entities::HexWords;
use text_writing::{TextFault, write_whole};

/// How many classes of a stretch were tried.
pub(crate) fn tried_in(stretch: &Stretch) -> usize {
    stretch.tried.iter().filter(|is_tried| **is_tried).count()
}

/// The line of a stretch: how many of its classes were tried.
fn stretch_line(alloc: Global, stretch: &Stretch) -> Result<String, AllocError> {
    let (port, version) = (stretch.port, stretch.version);
    let (tried, classes) = (tried_in(stretch), stretch.classes.len());
    format!(in alloc; "coverage port {port} version {version} {tried} of {classes} classes\n")
}

/// The line of a class of a stretch that wasn't tried, with a frame that has it.
fn class_line(
    alloc: Global,
    stretch: &Stretch,
    example: &ClassExample,
) -> Result<String, AllocError> {
    let (port, version) = (stretch.port, stretch.version);
    let words = ClassWords(&example.class);
    let digits = HexWords(&example.frame);
    format!(in alloc; "unseen port {port} version {version} {words} frame {digits}\n")
}

/// Writes a stretch.
fn write_stretch<W: Write>(
    alloc: Global,
    stretch: &Stretch,
    writer: &mut W,
) -> Result<(), TextFault> {
    write_whole(writer, stretch_line(alloc, stretch)?.as_bytes())?;
    for (example, is_tried) in stretch.classes.iter().zip(stretch.tried.iter()) {
        if !*is_tried {
            write_whole(writer, class_line(alloc, stretch, example)?.as_bytes())?;
        }
    }
    Ok(())
}

/// Writes the coverage of a history: for each stretch a line with how many of its classes were tried, and below it one for each class that
/// wasn't, with a frame to send.
pub(crate) fn write_coverage<W: Write>(
    alloc: Global,
    stretches: &[Stretch],
    writer: &mut W,
) -> Result<(), TextFault> {
    for stretch in stretches {
        write_stretch(alloc, stretch, writer)?;
    }
    Ok(())
}
