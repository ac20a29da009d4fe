//! What is said where a command writes no text, or not all of it.
use std::io::Write;
use text_writing::{DecodeFault, LookFault, Status, TextFault, report_look};

/// Says that there is no memory, and gives the status.
pub fn without_memory<E: Write>(err: &mut E) -> Status {
    report_look(&Err(LookFault::NoMemory), err)
}

/// Says how a text ended, and gives the status.
pub fn report_text<E: Write>(outcome: Result<(), TextFault>, err: &mut E) -> Status {
    report_look(&outcome.map_err(LookFault::from), err)
}

/// Says how the lines of a script ended, and what is wrong in a bad one, and gives the status.
pub fn report_decoding<E: Write>(outcome: Result<(), DecodeFault>, err: &mut E) -> Status {
    let status = report_look(&outcome.map_err(LookFault::from), err);
    if let Err(DecodeFault::BadLine(_, mistake)) = outcome {
        let _ = writeln!(err, "{mistake}");
    }
    status
}

/// Says that the value of an option is none, and gives the status.
pub fn report_value<E: Write>(value: &str, option: &str, expected: &str, err: &mut E) -> Status {
    let _ = write!(
        err,
        "error: invalid value '{value}' for '{option}': expected {expected}\n\nFor more information, try '--help'.\n",
    );
    Status::Failed
}
