//! What the words of a command line ask for.
use crate::expecting::ExpectWords;
use crate::migrating::MigrateWords;
use run_settings::RunSettings;

/// What the words of the command line ask for. The names of files lie in the words.
#[derive(Drop)]
pub enum Words<'a> {
    /// A replay of a script.
    Replay(ReplayWords<'a>),
    /// A run over two files.
    Run(RunWords<'a>),
    /// What each line of a script or of answers means.
    Decode(DecodeWords<'a>),
    /// The managed entities after a trace.
    Mib(MibWords<'a>),
    /// The table in force at a port after a trace.
    Rules(RulesWords<'a>),
    /// What becomes of one frame after a trace.
    Explain(ExplainWords<'a>),
    /// Whether a right unit may have done what a history says.
    Judge(JudgeWords<'a>),
    /// What becomes of the frames of a capture after a trace.
    Forward(ForwardWords<'a>),
    /// The history that captures show.
    Record(RecordWords<'a>),
    /// The script of a text in words.
    Encode(EncodeWords<'a>),
    /// What is suspect in a trace.
    Lint(LintWords<'a>),
    /// How the managed entities after a trace point to each other.
    Graph(GraphWords<'a>),
    /// What the managed entities after a trace can do with frames.
    Cover(CoverWords<'a>),
    /// Which frames two configurations treat differently.
    Diff(DiffWords<'a>),
    /// Which frames a change treats in between as neither its beginning nor its end does.
    Hitless(HitlessWords<'a>),
    /// Whether frames end as is expected.
    Expect(ExpectWords<'a>),
    /// A way between two configurations on which no frame is torn.
    Migrate(MigrateWords<'a>),
}

/// How `replay` is to answer.
#[derive(Clone, Copy)]
pub struct ReplayWords<'a> {
    /// The file with the script, or None for standard input.
    pub file: Option<&'a str>,
    /// Whether the answers are shown as JSON.
    pub json: bool,
}

/// How `decode` is to say what lines mean.
#[derive(Drop)]
pub struct DecodeWords<'a> {
    /// The files with the lines, or none for standard input.
    pub files: Vec<&'a str>,
    /// Whether it says them in the words that `encode` reads.
    pub source: bool,
    /// Whether it says them as JSON.
    pub json: bool,
}

/// What `encode` is to make a script of.
#[derive(Clone, Copy)]
pub struct EncodeWords<'a> {
    /// The file with the text in words, or None for standard input.
    pub file: Option<&'a str>,
    /// The transaction correlation identifier of the first message, or None for 1.
    pub identifier: Option<u16>,
}

/// What `run` is to do.
#[derive(Clone, Copy)]
pub struct RunWords<'a> {
    /// The file with the messages that are applied.
    pub trace: &'a str,
    /// The line, from 1, behind which the trace isn't read, or None where it is read whole.
    pub until: Option<u32>,
    /// The capture file with the frames that are forwarded.
    pub frames: &'a str,
    /// How the frames are forwarded.
    pub settings: RunSettings,
    /// Whether what comes of it is shown as JSON.
    pub json: bool,
}

/// What `mib` is to show.
#[derive(Drop)]
pub struct MibWords<'a> {
    /// The messages that are applied, those of each file by themselves.
    pub traces: TracesWords<'a>,
    /// Whether it is shown as JSON.
    pub json: bool,
}

/// What `rules` is to show.
#[derive(Drop)]
pub struct RulesWords<'a> {
    /// The messages that are applied, those of each file by themselves.
    pub traces: TracesWords<'a>,
    /// The port whose table is shown.
    pub port: u16,
    /// Whether it is shown as JSON.
    pub json: bool,
}

/// The frame that is explained.
#[derive(Clone, Copy)]
pub enum FrameWords<'a> {
    /// That of these bytes, in hexadecimal digits if it is one.
    Bytes(&'a str),
    /// That of a capture.
    Captured {
        /// The file with the capture.
        file: &'a str,
        /// Which of its frames, from 1.
        number: u32,
    },
}

/// What `explain` is to explain.
#[derive(Clone, Copy)]
pub struct ExplainWords<'a> {
    /// The messages that are applied.
    pub trace: TraceWords<'a>,
    /// The port at which the frame comes in.
    pub port: u16,
    /// The frame.
    pub frame: FrameWords<'a>,
    /// Whether each entry that fails is shown, and not their number alone.
    pub all: bool,
    /// Whether it is shown as JSON.
    pub json: bool,
}

/// What `lint` is to look at, and what it finds.
#[derive(Drop)]
pub struct LintWords<'a> {
    /// The messages that are applied, those of each file by themselves.
    pub traces: TracesWords<'a>,
    /// The words of the kinds whose findings are left out, as they were given.
    pub ignored: Vec<&'a str>,
    /// The word of the severity from which on a finding ends the command with status 3, as it was given; None for errors alone.
    pub fail_on: Option<&'a str>,
    /// Whether it is shown as JSON.
    pub json: bool,
}

/// What `graph` is to show.
#[derive(Clone, Copy)]
pub struct GraphWords<'a> {
    /// The messages that are applied.
    pub trace: TraceWords<'a>,
    /// The port whose entities alone are shown, or None for all.
    pub port: Option<u16>,
}

/// What `cover` is to list.
#[derive(Clone, Copy)]
pub struct CoverWords<'a> {
    /// The messages that are applied.
    pub trace: TraceWords<'a>,
    /// The port whose frames alone are listed, or None for each port that is named.
    pub port: Option<u16>,
    /// How many bytes a frame has at least, or None for any number.
    pub least: Option<u16>,
    /// Whether it is shown as a script.
    pub script: bool,
    /// Whether it is shown as JSON.
    pub json: bool,
    /// The file for the frames of the only port, `-` for standard output, or None where none is wanted.
    pub out: Option<&'a str>,
}

/// What `diff` is to compare: the configuration before, which the trace leaves, with the one after.
#[derive(Clone, Copy)]
pub struct DiffWords<'a> {
    /// The messages that lead to the configuration before; and to the one after, where no other trace does. The last line that is read is
    /// that of the configuration after.
    pub trace: TraceWords<'a>,
    /// The last line that is read for the configuration before, from 1; 0 for none, or None for all.
    pub from: Option<u32>,
    /// The file with the messages that lead to the configuration after, a script, or None where it is the same.
    pub to: Option<&'a str>,
    /// The port whose frames alone are compared, or None for each port that is named.
    pub port: Option<u16>,
    /// How many bytes a frame has at least, or None for any number.
    pub least: Option<u16>,
    /// Whether it is shown as JSON.
    pub json: bool,
}

/// Which change `hitless` is to look at: that from one line of a trace to another.
#[derive(Clone, Copy)]
pub struct HitlessWords<'a> {
    /// The messages that are applied. The last line that is read ends the change.
    pub trace: TraceWords<'a>,
    /// The line, from 1, behind which the change begins; 0 for the first.
    pub from: u32,
    /// The port whose frames alone are looked at, or None for each port that is named.
    pub port: Option<u16>,
    /// How many bytes a frame has at least, or None for any number.
    pub least: Option<u16>,
    /// Whether it is shown as JSON.
    pub json: bool,
}

/// What `judge` is to judge.
#[derive(Clone, Copy)]
pub struct JudgeWords<'a> {
    /// The file with the history, or None for standard input.
    pub file: Option<&'a str>,
    /// Whether the contents of replies are looked at only where the model has the class and the action.
    pub modelled: bool,
    /// Whether each frame is judged by itself.
    pub unordered: bool,
    /// Whether a frame that was never sent, or has left before, may leave.
    pub allow_strays: bool,
    /// Whether a short frame may be seen with zeros behind it.
    pub padded: bool,
    /// Whether a message that is sent twice is carried out once.
    pub repeats: bool,
    /// The file with the script that is carried out before the history, or None where there is none.
    pub start: Option<&'a str>,
    /// How many deviations are listed at most, or None for the first alone.
    pub listed: Option<u32>,
    /// How many bytes a frame has at least whose class is listed as tried or not, or None where none is listed.
    pub coverage: Option<u16>,
    /// Whether a history without an end line is explained too.
    pub allow_unfinished: bool,
    /// Whether it is shown as JSON.
    pub json: bool,
}

/// The messages that are applied before anything is done.
#[derive(Clone, Copy)]
pub struct TraceWords<'a> {
    /// The file with them, a script.
    pub file: &'a str,
    /// The last line that is read, from 1, or None for all.
    pub until: Option<u32>,
    /// Whether a message that is refused, or has a fault, is an error.
    pub strict: bool,
}

/// The same of several files, of which each is applied by itself.
#[derive(Drop)]
pub struct TracesWords<'a> {
    /// The files with them, scripts, in order; at least one.
    pub files: Vec<&'a str>,
    /// The last line that is read of each, from 1, or None for all.
    pub until: Option<u32>,
    /// Whether a message that is refused, or has a fault, is an error.
    pub strict: bool,
}

/// What `forward` is to forward, and what it writes.
#[derive(Clone, Copy)]
pub struct ForwardWords<'a> {
    /// The messages that are applied.
    pub trace: TraceWords<'a>,
    /// The file with the capture.
    pub frames: &'a str,
    /// The port at which the frames come in.
    pub port: u16,
    /// The file for the frames that leave, `-` for standard output, or None where they aren't wanted.
    pub out: Option<&'a str>,
    /// The file for the frames that are dropped, `-` for standard output, or None where they aren't wanted.
    pub dropped: Option<&'a str>,
    /// The file for a line a frame, `-` for standard output, or None where none is wanted.
    pub verdicts: Option<&'a str>,
    /// Whether the totals are shown as JSON.
    pub json: bool,
}

/// The captures that `record` makes a history of, and how. A capture of one port stands as the number of the port, `=`, and the file;
/// [`read_numbered`](crate::read_numbered) takes such a text apart, [`read_left`](crate::read_left) one of frames that left, and
/// [`read_skewed`](crate::read_skewed) one of how a clock deviates.
#[derive(Drop)]
pub struct RecordWords<'a> {
    /// The files with OMCI frames.
    pub omci: Vec<&'a str>,
    /// The numbers of ports, each with the file of the frames that were sent into it.
    pub into: Vec<&'a str>,
    /// The numbers of GEM ports, or `any`, each with the file of the frames that left by it; or files alone, whose interfaces name the GEM
    /// ports.
    pub out_of: Vec<&'a str>,
    /// The types of tags beside those of IEEE 802.1Q, each in hexadecimal digits.
    pub tpids: Vec<&'a str>,
    /// How many milliseconds behind a reply a wait for it stands, or None for no waits.
    pub wait: Option<u32>,
    /// After how many milliseconds a frame that wasn't seen to leave is lost, or None where none is said to be.
    pub lost: Option<u32>,
    /// Whether frames were on their way as the captures of what was sent began. It is only where a frame is said to be lost.
    pub late: bool,
    /// Whether frames were sent behind the ends of the captures of what was sent.
    pub early: bool,
    /// Files, each with the milliseconds that are added to its times.
    pub skews: Vec<&'a str>,
    /// Whether each frame ends in its check sequence.
    pub fcs: bool,
    /// Whether zeros that end a frame are looked past where frames are compared.
    pub padded: bool,
    /// Whether remarks say where each event was seen.
    pub sources: bool,
    /// The file for the history, `-` or None for standard output.
    pub out: Option<&'a str>,
    /// Whether a frame that left in doubt, a stray, a frame that is still open, or a capture that may lack its tags is an error.
    pub strict: bool,
}
