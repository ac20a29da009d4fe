//! Totals as JSON.
use bench_forward::{Dropped, Totals};
use frame_meaning::Reason;
use json::Writer;
use std::alloc::{AllocError, Global};
use std::fmt;
use std::io::Write;
use text_entities::{JsonText, put_number, put_words};
use text_writing::TextFault;

/// Writes totals as one object of JSON (RFC 8259): `frames`, how many of them are `forwarded`, the `bytes` of those as they leave, and
/// how many frames are `cut`, of which the capture stores fewer bytes than they had; `drops`, an object for each reason for which
/// frames are dropped, with its number and words, how many frames there are and the numbers of the first ten; and `gems`, an object
/// for each GEM port by which frames leave. The objects of an array stand on lines of their own.
pub fn write_totals_json<W: Write>(
    alloc: Global,
    totals: &Totals,
    writer: &mut W,
) -> Result<(), TextFault> {
    let members = CountMembers(totals);
    let front = format!(in alloc; "{{\"format\":1,{members},\"drops\":")?;
    let mut drops = JsonText::new(alloc);
    drops.begin(writer, &front)?;
    write_drops(alloc, &mut drops, totals, writer)?;
    drops.end(writer, ",")?;
    let mut gems = JsonText::new(alloc);
    gems.begin(writer, "\"gems\":")?;
    write_gems(&mut gems, totals, writer)?;
    gems.end(writer, "}")
}

/// The members that are a number.
#[derive(Clone, Copy)]
struct CountMembers<'t>(&'t Totals);

impl fmt::Display for CountMembers<'_> {
    fn fmt<W: fmt::Write>(&self, f: &mut fmt::Formatter<W>) -> fmt::Result {
        let (frames, forwarded) = (self.0.frames(), self.0.forwarded());
        let (bytes, cut) = (self.0.bytes(), self.0.cut());
        write!(
            f,
            "\"frames\":{frames},\"forwarded\":{forwarded},\"bytes\":{bytes},\"cut\":{cut}"
        )
    }
}

/// Writes the objects of the frames that are dropped.
fn write_drops<W: Write>(
    alloc: Global,
    text: &mut JsonText,
    totals: &Totals,
    writer: &mut W,
) -> Result<(), TextFault> {
    for reason in &Reason::ALL {
        let dropped = totals.dropped(*reason);
        if dropped.frames() != 0 {
            let mut object = text.object()?;
            put_drop(alloc, &mut object, *reason, dropped)?;
            text.write(writer, object)?;
        }
    }
    Ok(())
}

/// Puts the members of the frames that are dropped for a reason.
fn put_drop(
    alloc: Global,
    object: &mut Writer,
    reason: Reason,
    dropped: &Dropped,
) -> Result<(), AllocError> {
    put_number(object, "reason", u64::from(reason.code()))?;
    put_words(alloc, object, "words", &reason)?;
    put_number(object, "frames", dropped.frames())?;
    object.key("first")?;
    object.begin_array()?;
    for frame in dropped.first() {
        object.u64(*frame)?;
    }
    object.end_array()
}

/// Writes the objects of the frames that leave, by ascending GEM port.
fn write_gems<W: Write>(
    text: &mut JsonText,
    totals: &Totals,
    writer: &mut W,
) -> Result<(), TextFault> {
    for gem in 0..=u16::MAX {
        let frames = totals.leaving_by(gem);
        if frames != 0 {
            let mut object = text.object()?;
            put_number(&mut object, "gem", u64::from(gem))?;
            put_number(&mut object, "frames", frames)?;
            text.write(writer, object)?;
        }
    }
    Ok(())
}
