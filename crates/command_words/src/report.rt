//! What is written where the words ask for nothing that can be done.
ghost use Rattle.std.specs.Prelude.{◌≡◌};
ghost use Rattle.text_writing.specs.declared.status.Status.TheVariants.{Done, Failed};
ghost use Rattle.clap.specs.Words.{kind_of};
ghost use Rattle.command_words.specs.Report.{status_of};

use clap::Error;
use clap::error::ErrorKind;
use std::io::Write;
use text_writing::Status;

/// Writes the text of an error that `read_words` gave, and gives the status. Help and the version go to `out`, and all is done then.
/// Anything else goes to `err`, and has failed; a want of memory as `no memory`. A write that fails is passed over.
pub fn report_words<O: Write, E: Write>(error: &Error, out: &mut O, err: &mut E) -> Status
    ensures status { result ≡ status_of (kind_of error.now) }
    ensures out { status_of (kind_of error.now) ≡ Failed → out.new ≡ out.old }
    ensures err { status_of (kind_of error.now) ≡ Done → err.new ≡ err.old }
{
    match error.kind() {
        ErrorKind::DisplayHelp | ErrorKind::DisplayVersion => {
            let _ = write!(out, "{error}");
            Status::Done
        }
        ErrorKind::OutOfMemory => {
            let _ = err.write_all(b"no memory\n");
            Status::Failed
        }
        _ => {
            let _ = write!(err, "{error}");
            Status::Failed
        }
    }
}
