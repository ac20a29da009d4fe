//! A capture file that is read in pieces.
ghost use Rattle.std.specs.Prelude.{◌≡◌, ◌++◌, true, IfOk, IfSome};
ghost use Rattle.std.specs.Io.KnownBytes.{IsAtEnd};
ghost use Rattle.bench_capture.specs.Formats.{FewKept};
ghost use Rattle.bench_capture.specs.Windows.{Begins, IsBegun, IsNextSpan, SpanIsWithin, held, reading_on};

use crate::fault::ReadFault;
use crate::format::{Format, wanted_to_open};
use crate::recorded::RecordedFrame;
use crate::span::{Span, frame_at};
use crate::turn::{Turn, take_turn};
use crate::window::Window;
use std::alloc::Global;
use std::io::{ErrorKind, Read};
use std::marker::Model;

/// A capture file in either format, read in pieces from a reader. It stands at a frame, or in front of the first. Contracts see that
/// frame, and what is left behind it: its frames, and its first fault.
#[derive(Drop)]
pub struct FrameReader<R: Read> {
    reader: R,
    // What was read of the file, and is to be taken.
    window: Window,
    format: Format,
    // The frame that it stands at, a part of the window's buffer.
    frame: Option<Span>,
    // Whether the reader came to its end.
    ended: bool,
}

impl<R: Read> Model for FrameReader<R> {
    ghost use Rattle.std.specs.Prelude.{◌≡◌, ◌++◌, true, IfSome, option_map};
    ghost use Rattle.std.specs.Io.KnownBytes.{IsAtEnd};
    ghost use Rattle.bench_capture.specs.Calls.{Position};
    ghost use Rattle.bench_capture.specs.Formats.{FewKept, IsWithin, recorded_at};
    ghost use Rattle.bench_capture.specs.Windows.{reading_on};

    ghost Value = { Position };

    ghost view = { λ f. record {
      frame = option_map (recorded_at f.window.bytes.items) f.frame;
      left = option_map (reading_on f.format f.window) (R.remaining f.reader);
    } };

    ghost invariant = { λ f. (f.ended ≡ true → IsAtEnd (R.remaining f.reader))
        × IfSome f.frame (IsWithin f.window.bytes.items)
        × FewKept f.format };
}

/// What is known of a capture behind its beginning, which is taken from the window.
fn open_format<R: Read>(
    alloc: Global,
    reader: &mut R,
    window: &mut Window,
    ended: &mut bool,
) -> Result<Format, ReadFault>
    requires { ended.old ≡ true → IsAtEnd (R.remaining reader.old) }
    ensures begins { IfSome (R.remaining reader.old) (λ file.
        Begins (held window.old ++ file) result window.new (R.remaining reader.new)) }
    ensures ended { ended.new ≡ true → IsAtEnd (R.remaining reader.new) }
    ensures kept { IfOk result FewKept }
{
    for _ in 0..u64::MAX {
        match Format::open(alloc, window.as_slice()) {
            Ok((format, length)) => {
                window.take(length);
                return Ok(format);
            }
            Err(fault) => {
                let bytes = window.as_slice();
                if *ended || wanted_to_open(bytes) <= bytes.len() {
                    return Err(ReadFault::Capture(fault));
                }
                if let Some((format, gap)) = Format::open_long(alloc, bytes) {
                    window.cut(gap);
                    return Ok(format);
                }
            }
        }
        match window.read_more(reader) {
            Ok(more) => *ended = !more,
            Err(fault) => return Err(fault),
        }
    }
    Err(ReadFault::Unreadable(ErrorKind::FileTooLarge))
}

/// Passes over a first block that the window doesn't hold all of. Err with the fault that it has.
fn pass_first<R: Read>(
    format: &mut Format,
    reader: &mut R,
    window: &mut Window,
    ended: &mut bool,
) -> Result<(), ReadFault>
    requires ended { ended.old ≡ true → IsAtEnd (R.remaining reader.old) }
    requires kept { FewKept format.old }
    ensures begun { IfSome (R.remaining reader.old) (λ rest.
        IsBegun (reading_on format.old window.old rest) result format.new window.new
        (R.remaining reader.new)) }
    ensures ended { ended.new ≡ true → IsAtEnd (R.remaining reader.new) }
    ensures kept { FewKept format.new }
{
    for _ in 0..u64::MAX {
        if !format.is_within() {
            return Ok(());
        }
        match take_turn(format, window, *ended) {
            Ok(Turn::Passed) => continue,
            Ok(Turn::Wants) => match window.read_more(reader) {
                Ok(more) => *ended = !more,
                Err(fault) => return Err(fault),
            },
            // A first block holds no packet, and a file doesn't end within it.
            Ok(Turn::Frame(_) | Turn::End) => break,
            Err(fault) => return Err(fault),
        }
    }
    Err(ReadFault::Unreadable(ErrorKind::FileTooLarge))
}

/// Takes records or blocks up to the next frame. None at the end.
fn next_span<R: Read>(
    format: &mut Format,
    reader: &mut R,
    window: &mut Window,
    ended: &mut bool,
) -> Result<Option<Span>, ReadFault>
    requires ended { ended.old ≡ true → IsAtEnd (R.remaining reader.old) }
    requires kept { FewKept format.old }
    ensures next { IfSome (R.remaining reader.old) (λ rest.
        IsNextSpan (reading_on format.old window.old rest) result format.new window.new
        (R.remaining reader.new)) }
    ensures within { SpanIsWithin result window.new }
    ensures ended { ended.new ≡ true → IsAtEnd (R.remaining reader.new) }
    ensures kept { FewKept format.new }
{
    for _ in 0..u64::MAX {
        match take_turn(format, window, *ended) {
            Ok(Turn::Frame(span)) => return Ok(Some(span)),
            Ok(Turn::End) => return Ok(None),
            Ok(Turn::Passed) => continue,
            Ok(Turn::Wants) => match window.read_more(reader) {
                Ok(more) => *ended = !more,
                Err(fault) => return Err(fault),
            },
            Err(fault) => return Err(fault),
        }
    }
    Err(ReadFault::Unreadable(ErrorKind::FileTooLarge))
}

impl<R: Read> FrameReader<R> {
    ghost use Rattle.std.specs.Prelude.{◌≡◌, IfSome};
    ghost use Rattle.bench_capture.specs.Calls.{BeginsReading, GoesOn, StandsAtFrame};
    ghost use Rattle.bench_capture.specs.File.{reading_of};

    /// A reader that stands in front of the first frame of a capture file. Err with the fault that the file's beginning has; where
    /// there is no memory for the buffer; or where the reader fails.
    pub fn open(alloc: Global, reader: R) -> Result<FrameReader<R>, ReadFault>
    where
        R: Drop,
        ensures { IfSome (R.remaining reader) (λ file. BeginsReading (reading_of file) result) }
    {
        let Ok(mut window) = Window::new(alloc) else {
            return Err(ReadFault::NoMemory);
        };
        let mut reader = reader;
        let mut ended = false;
        let mut format = open_format(alloc, &mut reader, &mut window, &mut ended)?;
        pass_first(&mut format, &mut reader, &mut window, &mut ended)?;
        Ok(FrameReader {
            reader,
            window,
            format,
            frame: None,
            ended,
        })
    }

    /// Goes on to the next frame. False at the end: then it stands at none. Err with the first fault, once it has stood at all frames
    /// in front of it. Behind the end, and behind a fault, each call gives the same again. Err with `NoMemory` or `Unreadable` where
    /// memory is refused or the reader fails: then nothing is lost, and a later call goes on.
    pub fn advance(&mut self) -> Result<bool, ReadFault>
        ensures goes_on { IfSome self.old.left (λ all. GoesOn all result self.new) }
        ensures stands { StandsAtFrame result self.new.frame }
    {
        self.frame = None;
        self.frame = next_span(
            &mut self.format,
            &mut self.reader,
            &mut self.window,
            &mut self.ended,
        )?;
        Ok(self.frame.is_some())
    }

    /// The frame that it stands at, a slice of the buffer. None in front of the first frame, and where the last call of
    /// [`FrameReader::advance`] gave none.
    pub fn frame(&self) -> Option<RecordedFrame<'_>>
        ensures { result ≡ self.now.frame }
    {
        let span = self.frame?;
        Some(frame_at(&self.window.bytes, span))
    }
}
