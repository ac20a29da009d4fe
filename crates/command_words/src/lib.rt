//! What a command line asks for, as it was taken apart, and what is written where it asks for nothing that can be done.
#![tactic(auto)]

mod expecting;
mod migrating;
mod numbered;
mod reading;
mod report;
mod skewed;
mod words;

pub use expecting::ExpectWords;
pub use migrating::MigrateWords;
pub use numbered::{LeftBy, LeftFile, NumberedFile, read_left, read_numbered, read_tpid};
pub use reading::{complaint, read_matches};
pub use report::report_words;
pub use skewed::{SkewedFile, read_skewed};
pub use words::{
    CoverWords, DecodeWords, DiffWords, EncodeWords, ExplainWords, ForwardWords, FrameWords,
    GraphWords, HitlessWords, JudgeWords, LintWords, MibWords, RecordWords, ReplayWords,
    RulesWords, RunWords, TraceWords, TracesWords, Words,
};
