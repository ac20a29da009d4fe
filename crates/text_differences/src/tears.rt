//! Which frames a change treats on its way as neither its beginning nor its end does.
use crate::fate::{Fate, put_fate};
use crate::writing::write_text;
use frame_classes::Tear;
use json::Writer;
use mib_state::Mib;
use std::alloc::{AllocError, Global};
use std::io::Write;
use text_entities::{FORMAT, HexWords, JsonText, put_number, put_words};
use text_writing::{TextFault, write_whole};

/// A moment of a change: the version, and the line of the message that made it; and the managed entities as the change begins, here, and as
/// it ends.
#[derive(Clone, Copy)]
pub struct Moment<'m> {
    /// How many requests were accepted before.
    pub version: u64,
    /// The number, from 1, of the line of the trace.
    pub line: u64,
    pub before: &'m Mib,
    pub here: &'m Mib,
    pub after: &'m Mib,
}

/// What becomes of a frame at a moment.
#[derive(Drop)]
struct Fates<'f> {
    before: Fate<'f>,
    here: Fate<'f>,
    after: Fate<'f>,
}

impl<'f> Fates<'f> {
    fn of(moment: &Moment<'_>, port: u16, tear: &'f Tear) -> Fates<'f> {
        let frame = tear.frame.as_slice();
        Fates {
            before: Fate::of(moment.before, port, &tear.before, frame),
            here: Fate::of(moment.here, port, &tear.here, frame),
            after: Fate::of(moment.after, port, &tear.after, frame),
        }
    }

    fn put(&self, alloc: Global, object: &mut Writer) -> Result<(), AllocError> {
        put_fate(alloc, object, "before", &self.before)?;
        put_fate(alloc, object, "here", &self.here)?;
        put_fate(alloc, object, "after", &self.after)
    }
}

/// A frame for which a moment is torn, with its lines but for the moment in front of them. They stay while nothing of the frame changes.
#[derive(Drop)]
pub struct ShownTear {
    pub tear: Tear,
    lines: String,
}

impl ShownTear {
    /// A frame that comes in at a port, for which a moment is torn.
    pub fn of(
        alloc: Global,
        moment: &Moment<'_>,
        port: u16,
        tear: Tear,
    ) -> Result<ShownTear, AllocError> {
        let lines = tear_lines(alloc, moment, port, &tear)?;
        Ok(ShownTear { tear, lines })
    }
}

/// The lines of a frame for which a moment is torn, but for the moment in front of them.
fn tear_lines(
    alloc: Global,
    moment: &Moment<'_>,
    port: u16,
    tear: &Tear,
) -> Result<String, AllocError> {
    let digits = HexWords(&tear.frame);
    let Fates {
        before,
        here,
        after,
    } = Fates::of(moment, port, tear);
    let mut text = String::new(alloc);
    writeln!(text, " port {port} frame {digits}")?;
    write!(text, "  before {before}\n  here {here}\n  after {after}\n")?;
    Ok(text)
}

/// The list of the torn moments of a change, which is written moment by moment: nothing of it is kept.
#[derive(Drop)]
pub struct TearList {
    alloc: Global,
    /// Whether it is one object of JSON.
    is_json: bool,
    json: JsonText,
    /// How many frames are shown.
    count: u64,
}

impl TearList {
    /// A list of which nothing is written.
    pub fn new(alloc: Global, is_json: bool) -> TearList {
        TearList {
            alloc,
            is_json,
            json: JsonText::new(alloc),
            count: 0,
        }
    }

    /// Whether no frame is shown.
    pub fn is_empty(&self) -> bool {
        self.count == 0
    }

    /// Writes what stands in front of all frames: of JSON (RFC 8259) the object's beginning.
    pub fn begin<W: Write>(&self, writer: &mut W) -> Result<(), TextFault> {
        if !self.is_json {
            return Ok(());
        }
        write_whole(writer, FORMAT.as_bytes())?;
        self.json.begin(writer, "\"torn\":")
    }

    /// Writes the frames of a port for which a moment is torn.
    pub fn port<W: Write>(
        &mut self,
        moment: &Moment<'_>,
        port: u16,
        shown: &[ShownTear],
        writer: &mut W,
    ) -> Result<(), TextFault> {
        let (version, line) = (moment.version, moment.line);
        let front = format!(in self.alloc; "version {version} line {line}")?;
        for each in shown {
            if self.is_json {
                self.write_object(moment, port, &each.tear, writer)?;
            } else {
                write_text(writer, &front)?;
                write_text(writer, &each.lines)?;
            }
            self.count = self.count.saturating_add(1);
        }
        Ok(())
    }

    /// Writes a frame as an object: `version`, `line`, `port`; `frame`, its bytes; and what becomes of it `before`, `here` and `after`.
    fn write_object<W: Write>(
        &mut self,
        moment: &Moment<'_>,
        port: u16,
        tear: &Tear,
        writer: &mut W,
    ) -> Result<(), TextFault> {
        let alloc = self.alloc;
        let fates = Fates::of(moment, port, tear);
        let mut object = self.json.object()?;
        put_number(&mut object, "version", moment.version)?;
        put_number(&mut object, "line", moment.line)?;
        put_number(&mut object, "port", u64::from(port))?;
        put_words(alloc, &mut object, "frame", &HexWords(&tear.frame))?;
        fates.put(alloc, &mut object)?;
        self.json.write(writer, object)
    }

    /// Writes what stands behind all frames: of lines how many there are, or `hitless`; of JSON the object's end.
    pub fn end<W: Write>(&self, writer: &mut W) -> Result<(), TextFault> {
        if self.is_json {
            return self.json.end(writer, "}");
        }
        match self.count {
            0 => write_text(writer, "hitless\n"),
            count => write_text(writer, &format!(in self.alloc; "torn {count}\n")?),
        }
    }
}
