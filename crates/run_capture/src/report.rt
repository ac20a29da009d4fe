//! The words and the status with which a run ends.
ghost use Rattle.std.specs.Prelude.{◌≡◌, ◌++◌};
ghost use Rattle.std.specs.Fmt.{decimal};
ghost use Rattle.run_capture.specs.Report.{status_of, words_at, words_of};
ghost use Rattle.run_capture.specs.declared.fault.RunFault.TheVariants.{Capture};
ghost use Rattle.text_writing.specs.Written.{AppendsPart};

use crate::fault::RunFault;
use capture::CaptureFault;
use itoa::Buffer;
use std::io::Write;
use text_writing::{bad_trace_words, no_memory_words, write_failed_words, write_whole};

/// Writes words, up to the write that fails.
fn write_words<W: Write>(writer: &mut W, words: &[u8])
    ensures { AppendsPart (W.contents writer.old) (W.contents writer.new) words.now }
{
    let _ = write_whole(writer, words);
}

/// Writes words, a number and more words, up to the write that fails.
fn write_number<W: Write>(writer: &mut W, front: &[u8], number: u64, behind: &[u8])
    ensures { AppendsPart (W.contents writer.old) (W.contents writer.new) (front.now
        ++ (decimal number ++ behind.now)) }
{
    let mut digits = Buffer::new();
    let Ok(()) = write_whole(writer, front) else {
        return;
    };
    let Ok(()) = write_whole(writer, digits.format(number).as_bytes()) else {
        return;
    };
    write_words(writer, behind);
}

/// Writes the words for a capture's fault, up to the write that fails.
fn write_capture_fault<W: Write>(writer: &mut W, fault: CaptureFault)
    ensures { AppendsPart (W.contents writer.old) (W.contents writer.new)
        (words_of (Capture fault)) }
{
    match fault {
        CaptureFault::Magic => write_words(writer, b"capture fault 1\n"),
        CaptureFault::Header => write_words(writer, b"capture fault 2\n"),
        CaptureFault::Link(link) => {
            write_number(writer, b"capture fault 3 at ", u64::from(link), b"\n")
        }
        CaptureFault::Torn(record) => {
            write_number(writer, b"capture fault 4 at ", u64::from(record), b"\n")
        }
        CaptureFault::TooLong(record) => {
            write_number(writer, b"capture fault 5 at ", u64::from(record), b"\n")
        }
    }
}

/// Writes the words for a fault, up to the write that fails.
fn write_fault<W: Write>(writer: &mut W, fault: RunFault)
    ensures { AppendsPart (W.contents writer.old) (W.contents writer.new) (words_of fault) }
{
    match fault {
        RunFault::Settings => write_words(writer, b"wrong settings\n"),
        RunFault::BadTrace(line) => write_words(writer, &bad_trace_words(line)),
        RunFault::Capture(fault) => write_capture_fault(writer, fault),
        RunFault::Unlisted => write_words(writer, b"unlisted frames\n"),
        RunFault::NoMemory => write_words(writer, &no_memory_words()),
        RunFault::Refused => write_words(writer, b"refused\n"),
        RunFault::CountFull => write_words(writer, b"counters are full\n"),
        RunFault::Write => write_words(writer, &write_failed_words()),
    }
}

/// Writes the words for how a run ended, if it didn't end well, and gives the status: 0, 2 for a bad trace line or capture, else
/// 1. A write that fails is passed over, and nothing is written behind it.
pub fn report_run<W: Write>(outcome: &Result<(), RunFault>, writer: &mut W) -> u8
    ensures status { result ≡ status_of outcome.now }
    ensures words { AppendsPart (W.contents writer.old) (W.contents writer.new)
        (words_at outcome.now) }
{
    let Err(fault) = outcome else {
        return 0;
    };
    write_fault(writer, *fault);
    fault.status()
}
