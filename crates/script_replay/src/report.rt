//! The words and the status with which a replay ends.
ghost use Rattle.std.specs.Prelude.{◌≡◌};
ghost use Rattle.text_writing.specs.Written.{AppendsPart};
ghost use Rattle.script_replay.specs.Report.{status_at, words_at, words_of};

use crate::fault::ReplayFault;
use std::io::Write;
use text_writing::{
    Words, bad_line_words, no_memory_words, read_failed_words, write_failed_words, write_whole,
};

/// The words for a fault.
fn words(fault: ReplayFault) -> Words
    ensures { result.items ≡ words_of fault }
{
    match fault {
        ReplayFault::BadLine(line) => bad_line_words(line),
        ReplayFault::Read(_) => read_failed_words(),
        ReplayFault::Write => write_failed_words(),
        ReplayFault::NoMemory => no_memory_words(),
    }
}

/// Writes the words for how a replay ended, if it wasn't at the end of its script, and gives the
/// status: 0, 2 for a bad line, else 1. A write that fails is passed over.
pub fn report_replay<W: Write>(outcome: &Result<(), ReplayFault>, writer: &mut W) -> u8
    ensures status { result ≡ status_at outcome.now }
    ensures words { AppendsPart (W.contents writer.old) (W.contents writer.new)
        (words_at outcome.now) }
{
    let Err(fault) = outcome else {
        return 0;
    };
    let _ = write_whole(writer, &words(*fault));
    fault.status()
}
