//! The words of the command line: the grammar that they follow, and what they ask for by it.
#![tactic(auto)]

mod forms;
mod grammar;
mod parsing;
mod version;

pub use command_words::{
    CoverWords, DecodeWords, DiffWords, EncodeWords, ExpectWords, ExplainWords, ForwardWords,
    FrameWords, GraphWords, HitlessWords, JudgeWords, LintWords, MibWords, MigrateWords,
    NumberedFile, RecordWords, ReplayWords, RulesWords, RunWords, TraceWords, TracesWords, Words,
    read_numbered, read_tpid, report_words,
};
pub use forms::usual_words;
pub use parsing::read_words;
