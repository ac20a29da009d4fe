//! The status with which the program ends.

/// With which status the program ends.
#[derive(Clone, Copy, Debug, PartialEq, Eq)]
pub enum Status {
    /// All that was asked for is written, and nothing is found that has a status of its own.
    Done,
    /// The words are wrong, a read or a write failed, or there is no memory, no place for a lane or no room for a count.
    Failed,
    /// A line, a text or a capture is bad, or `--strict` met a message that wasn't carried out.
    Bad,
    /// A command found what it looks for, a deviation or a difference, say, and all is written; or it found nothing of what it was to find.
    Found,
    /// `judge` found no deviation, but the history may be cut, or nothing of it was judged. All is written.
    Undecided,
    /// Nobody reads standard output any more. A shell reports a program that SIGPIPE, signal 13, ended by the same number.
    Unread,
}

impl Status {
    ghost use Rattle.std.specs.Prelude.{◌≡◌};
    ghost use Rattle.text_writing.specs.Status.{code_of, status_numbered};
    ghost use Rattle.text_writing.specs.declared.status.Status.{Status};

    /// Each status, in the order of their numbers.
    pub const ALL: [Status; 6] = [
        Status::Done,
        Status::Failed,
        Status::Bad,
        Status::Found,
        Status::Undecided,
        Status::Unread,
    ];

    /// Its number, which the caller of the program sees.
    pub fn code(self) -> u8
        ensures { result ≡ code_of self }
    {
        match self {
            Status::Done => 0,
            Status::Failed => 1,
            Status::Bad => 2,
            Status::Found => 3,
            Status::Undecided => 4,
            Status::Unread => 128 + 13,
        }
    }

    /// The status of a number, as `report_replay` and `report_run` give it. A number that none has is a failure.
    pub fn of(code: u8) -> Status
        ensures value { result ≡ status_numbered code }
        ensures back { (status : Status) → code_of status ≡ code → result ≡ status }
    {
        match code {
            0 => Status::Done,
            2 => Status::Bad,
            3 => Status::Found,
            4 => Status::Undecided,
            141 => Status::Unread,
            _ => Status::Failed,
        }
    }
}
