//! Why a command that looks inside wrote nothing, or not all: its number, its words and its status.
ghost use Rattle.std.specs.Prelude.{◌≡◌};
ghost use Rattle.text_writing.specs.LookFault.{number_of, status_at, status_of, words_at, words_of};
ghost use Rattle.text_writing.specs.Written.{AppendsPart};

use crate::fault::{DecodeFault, TextFault};
use crate::fault_words::{
    Words, bad_line_words, bad_trace_words, no_memory_words, read_failed_words, write_failed_words,
};
use crate::status::Status;
use crate::whole::write_whole;
use std::io::Write;
use thiserror::Error;

/// Why a command that looks inside, or that decodes, wrote nothing, or not all.
#[derive(Clone, Copy, Debug, PartialEq, Eq, Error)]
pub enum LookFault {
    /// A line of the script is bad: its number, from 1. The texts of the lines before it are written.
    #[error("line {0} is bad")]
    BadLine(u64),
    /// The trace's line of this number, from 1, is the first that is bad; frames of a trace are passed over. Nothing is written.
    #[error("trace line {0} is bad")]
    BadTrace(u64),
    /// A read failed. `decode` has written the texts of the lines that end in what was read, every other command nothing.
    #[error("read failed")]
    Read,
    /// A write failed, or took no byte. A front of the text is written.
    #[error("write failed")]
    Write,
    /// There was no memory.
    #[error("no memory")]
    NoMemory,
}

impl LookFault {
    /// The number under which the fault is reported.
    pub fn code(self) -> u8
        ensures { result ≡ number_of self }
    {
        match self {
            LookFault::BadLine(_) => 1,
            LookFault::BadTrace(_) => 2,
            LookFault::Read => 3,
            LookFault::Write => 4,
            LookFault::NoMemory => 5,
        }
    }

    /// The status with which the program ends.
    pub fn status(self) -> Status
        ensures { result ≡ status_of self }
    {
        match self {
            LookFault::BadLine(_) | LookFault::BadTrace(_) => Status::Bad,
            LookFault::Read | LookFault::Write | LookFault::NoMemory => Status::Failed,
        }
    }
}

impl From<TextFault> for LookFault {
    fn from(fault: TextFault) -> LookFault {
        match fault {
            TextFault::Write => LookFault::Write,
            TextFault::NoMemory => LookFault::NoMemory,
        }
    }
}

impl From<DecodeFault> for LookFault {
    fn from(fault: DecodeFault) -> LookFault {
        match fault {
            DecodeFault::BadLine(line, _) => LookFault::BadLine(line),
            DecodeFault::Read => LookFault::Read,
            DecodeFault::Write => LookFault::Write,
            DecodeFault::NoMemory => LookFault::NoMemory,
        }
    }
}

/// The words for a fault.
fn words(fault: LookFault) -> Words
    ensures { result.items ≡ words_of fault }
{
    match fault {
        LookFault::BadLine(line) => bad_line_words(line),
        LookFault::BadTrace(line) => bad_trace_words(line),
        LookFault::Read => read_failed_words(),
        LookFault::Write => write_failed_words(),
        LookFault::NoMemory => no_memory_words(),
    }
}

/// Writes the words for how a command that looks inside ended, if it didn't end well, and gives the status. A write that fails is
/// passed over.
pub fn report_look<W: Write>(outcome: &Result<(), LookFault>, writer: &mut W) -> Status
    ensures status { result ≡ status_at outcome.now }
    ensures words { AppendsPart (W.contents writer.old) (W.contents writer.new)
        (words_at outcome.now) }
{
    let Err(fault) = outcome else {
        return Status::Done;
    };
    let _ = write_whole(writer, &words(*fault));
    fault.status()
}
