//! The kinds of findings: one table, of which the words, the severities and the help come.
use crate::severity::Severity;
use std::alloc::AllocError;

/// A kind of findings.
#[derive(Clone, Copy)]
pub struct Kind {
    /// Its word, in lower case with dashes.
    pub word: &'static str,
    pub severity: Severity,
    /// What a finding of the kind says.
    pub says: &'static str,
}

impl Kind {
    pub const PORT_DROPS_ALL: Kind = Kind {
        word: "port-drops-all",
        severity: Severity::Error,
        says: "all frames of a port are dropped",
    };

    pub const NULL_POINTER: Kind = Kind {
        word: "null-pointer",
        severity: Severity::Error,
        says: "a mapper's pointer of a priority is null, so its frames are dropped",
    };

    pub const POINTER_TO_NOTHING: Kind = Kind {
        word: "pointer-to-nothing",
        severity: Severity::Error,
        says: "nothing has the number that an instance points to",
    };

    pub const PRIORITY_NOT_CARRIED: Kind = Kind {
        word: "priority-not-carried",
        severity: Severity::Error,
        says: "no GEM port carries the frames of a mapper's priority",
    };

    pub const SECOND_MAPPER: Kind = Kind {
        word: "second-mapper",
        severity: Severity::Error,
        says: "another mapper is in force at the port of this one",
    };

    pub const SECOND_TABLE: Kind = Kind {
        word: "second-table",
        severity: Severity::Error,
        says: "another table is in force at the port of this one",
    };

    pub const ENTRY_NEVER_USED: Kind = Kind {
        word: "entry-never-used",
        severity: Severity::Error,
        says: "an entry is tried behind one that admits everything that it admits",
    };

    pub const PORT_ID_USED_TWICE: Kind = Kind {
        word: "port-id-used-twice",
        severity: Severity::Error,
        says: "another GEM port has this one's port-ID",
    };

    pub const MESSAGE_FAULT: Kind = Kind {
        word: "message-fault",
        severity: Severity::Error,
        says: "a message of the trace has a fault",
    };

    pub const MESSAGE_REFUSED: Kind = Kind {
        word: "message-refused",
        severity: Severity::Error,
        says: "a message of the trace is refused",
    };

    pub const NOT_UPSTREAM: Kind = Kind {
        word: "not-upstream",
        severity: Severity::Warning,
        says: "a GEM port's direction carries no frames upstream",
    };

    pub const NOT_REACHED: Kind = Kind {
        word: "not-reached",
        severity: Severity::Warning,
        says: "the frames of no port come by an instance",
    };

    pub const WITHOUT_FRAMES: Kind = Kind {
        word: "without-frames",
        severity: Severity::Warning,
        says: "a mapper leads to a GEM port by priorities alone that no frame has",
    };

    pub const ENTRY_NOT_HELD: Kind = Kind {
        word: "entry-not-held",
        severity: Severity::Warning,
        says: "a message removes an entry that the table doesn't hold",
    };

    pub const ENTRY_OVERWRITTEN: Kind = Kind {
        word: "entry-overwritten",
        severity: Severity::Warning,
        says: "a message overwrites an entry that the trace set before",
    };

    pub const COPY_OF_NO_TAG: Kind = Kind {
        word: "copy-of-no-tag",
        severity: Severity::Warning,
        says: "an entry for frames without tags copies from a received tag",
    };

    pub const BRIDGE_NOT_MODELLED: Kind = Kind {
        word: "bridge-not-modelled",
        severity: Severity::Warning,
        says: "a mapper hangs on a bridge, which this model doesn't have",
    };

    pub const EMPTY_TRACE: Kind = Kind {
        word: "empty-trace",
        severity: Severity::Warning,
        says: "the trace has no message",
    };

    pub const PREDEFINED_NEVER_USED: Kind = Kind {
        word: "predefined-never-used",
        severity: Severity::Note,
        says: "the same of an entry that each new table has",
    };

    pub const NOT_MODELLED: Kind = Kind {
        word: "not-modelled",
        severity: Severity::Note,
        says: "a class or an action that this model doesn't have; once for each",
    };

    /// All of them, the most severe first.
    pub const ALL: [Kind; 20] = [
        Kind::PORT_DROPS_ALL,
        Kind::NULL_POINTER,
        Kind::POINTER_TO_NOTHING,
        Kind::PRIORITY_NOT_CARRIED,
        Kind::SECOND_MAPPER,
        Kind::SECOND_TABLE,
        Kind::ENTRY_NEVER_USED,
        Kind::PORT_ID_USED_TWICE,
        Kind::MESSAGE_FAULT,
        Kind::MESSAGE_REFUSED,
        Kind::NOT_UPSTREAM,
        Kind::NOT_REACHED,
        Kind::WITHOUT_FRAMES,
        Kind::ENTRY_NOT_HELD,
        Kind::ENTRY_OVERWRITTEN,
        Kind::COPY_OF_NO_TAG,
        Kind::BRIDGE_NOT_MODELLED,
        Kind::EMPTY_TRACE,
        Kind::PREDEFINED_NEVER_USED,
        Kind::NOT_MODELLED,
    ];

    /// The kind of a word, or None where none has it.
    pub fn of_word(word: &str) -> Option<Kind> {
        for kind in &Kind::ALL {
            if kind.word == word {
                return Some(*kind);
            }
        }
        None
    }

    /// Whether it is one of these.
    pub fn is_among(self, kinds: &[Kind]) -> bool {
        kinds.iter().any(|kind| kind.word == self.word)
    }
}

/// Puts a line for each kind: its word, its severity and what it says.
pub fn put_kinds(text: &mut String) -> Result<(), AllocError> {
    for kind in &Kind::ALL {
        let (word, severity, says) = (kind.word, kind.severity, kind.says);
        writeln!(text, "  {word} ({severity}): {says}")?;
    }
    Ok(())
}
