//! What is found of a history.

use arrayvec::ArrayVec;
use bench_history::{Digits, Extent, SeenGem};
use forward_plan::Reason;
use omci_msg::Reply;
use tag_view::Tag;

/// What is found of a history. Lines are numbered from 1, frames from 0 in the order in which they were sent, and a version is a number
/// of accepted requests, without those that were carried out before the first line.
#[derive(Drop)]
pub enum Judgement<'a> {
    /// A right unit may have behaved so.
    Explained(Explanation),
    /// A right unit can't have behaved so, and up to the line before it may have.
    Deviates(Deviation<'a>),
}

/// What is found of a history where every line is looked for that no right unit explains.
#[derive(Drop)]
pub enum Findings<'a> {
    /// A right unit may have behaved so.
    Explained(Explanation),
    /// A right unit can't have behaved so.
    Deviates(Deviations<'a>),
}

/// Lines that no right unit explains, in order: each is the first one where what those before it claim is taken back.
#[derive(Drop)]
pub struct Deviations<'a> {
    pub list: Vec<Deviation<'a>>,
    /// Whether more lines follow that aren't explained.
    pub more: bool,
}

/// What an explained history shows.
#[derive(Drop)]
pub struct Explanation {
    pub counts: Counts,
    /// Where the least versions of the frames of a port grow, in the order of frames; none where each frame is judged by itself.
    pub steps: Vec<Step>,
    /// Whether the history has a line that ends it: without one it may be cut.
    pub finished: bool,
    pub evidence: Evidence,
}

/// What of an explained history was judged.
#[derive(Clone, Copy, Debug, PartialEq, Eq)]
pub enum Evidence {
    /// Where frames were sent, one of them; and else a reply.
    Judged,
    /// Frames were sent, and none of them was judged.
    NoFrame,
    /// No frame was sent, and no reply compared.
    Nothing,
}

/// How much a history has of what.
#[derive(Clone, Copy)]
pub struct Counts {
    /// Messages that were sent.
    pub messages: usize,
    /// Requests among them that the model accepts and that are no repeats.
    pub accepted: usize,
    /// Replies that were seen.
    pub replies: usize,
    /// Frames that were seen to leave.
    pub forwarded: usize,
    /// Frames that are known to have been dropped.
    pub dropped: usize,
    /// Frames that weren't seen to leave while they were waited for.
    pub lost: usize,
    /// Frames of which none of these is said, or of which too little is known to judge them.
    pub open: usize,
    /// Frames that left, and that no open frame can be.
    pub strays: usize,
    /// Frames of which it can't be seen whether they left: one of several did.
    pub doubtful: usize,
    /// Frames of which only the first bytes are known.
    pub cut: usize,
}

/// A frame whose least version is greater than that of all ended frames before it at its port.
#[derive(Clone, Copy)]
pub struct Step {
    pub port: u16,
    pub version: usize,
    /// The number of the frame.
    pub frame: usize,
    /// The line that sent it.
    pub line: usize,
}

/// The first line that no right unit explains, with all lines before it.
#[derive(Drop)]
pub struct Deviation<'a> {
    pub line: usize,
    pub wrong: Wrong<'a>,
}

/// What is wrong with it.
#[derive(Debug, Drop)]
pub enum Wrong<'a> {
    /// A reply, and no request above waits for one.
    Unasked {
        reply: Digits<'a>,
    },
    /// A reply other than the model's.
    Reply(WrongReply<'a>),
    /// A frame that left or was dropped as by none of the versions that are left to it.
    Frame(WrongFrame<'a>),
    /// A frame that left, and that no open frame can be.
    Stray {
        gem: SeenGem,
        extent: Extent,
        frame: Digits<'a>,
    },
    /// A frame that left as none of those that it may be does by any version.
    OneOf(WrongOneOf<'a>),
}

/// A reply other than the model's.
#[derive(Debug, Drop)]
pub struct WrongReply<'a> {
    /// The line of the request that it answers.
    pub request_line: usize,
    pub reply: Digits<'a>,
    /// What the model replies.
    pub model: Reply,
}

/// A frame that left or was dropped as by none of the versions that are left to it.
#[derive(Debug, Drop)]
pub struct WrongFrame<'a> {
    pub number: usize,
    pub port: u16,
    /// The line that sent it.
    pub sent_line: usize,
    /// How much of the frame is known.
    pub extent: Extent,
    /// The frame as it was sent.
    pub sent: Digits<'a>,
    pub seen: End<'a>,
    /// The least version that the lines before leave to it.
    pub at_least: usize,
    /// The greatest. Where it is under the least, no version is left.
    pub at_most: usize,
    /// What the frame's versions from the least to the greatest mean for it, ascending.
    pub runs: Vec<Run>,
}

/// A frame that left as none of those that it may be does by any version.
#[derive(Debug, Drop)]
pub struct WrongOneOf<'a> {
    pub gem: SeenGem,
    pub extent: Extent,
    /// The frame as it was seen to leave.
    pub frame: Digits<'a>,
    /// The frames that it may be, by their numbers, ascending.
    pub candidates: Vec<Candidate<'a>>,
}

/// A frame that one that was seen to leave may be.
#[derive(Debug, Drop)]
pub struct Candidate<'a> {
    pub number: usize,
    pub port: u16,
    /// The line that sent it.
    pub sent_line: usize,
    /// How much of the frame is known.
    pub extent: Extent,
    /// The frame as it was sent.
    pub sent: Digits<'a>,
    /// The least version of its window.
    pub at_least: usize,
    /// The greatest.
    pub at_most: usize,
    /// What the frame's versions from the least to the greatest mean for it, ascending.
    pub runs: Vec<Run>,
}

/// How a frame was seen to end.
#[derive(Debug, Drop)]
pub enum End<'a> {
    /// It left by a GEM port, with these bytes.
    Left {
        gem: SeenGem,
        extent: Extent,
        frame: Digits<'a>,
    },
    /// It is known to have been dropped.
    Dropped,
    /// It wasn't seen to leave while it was waited for.
    Lost,
}

/// Versions that follow each other and give a frame the same answer.
#[derive(Debug, Drop)]
pub struct Run {
    pub from: usize,
    pub to: usize,
    pub answer: Answer,
}

/// What becomes of a frame.
#[derive(Debug, Drop)]
pub enum Answer {
    Left(Leaving),
    Dropped(Reason),
}

/// A frame as it leaves: the twelve bytes of the addresses of the frame that was sent, tags, outermost first, and its last bytes.
#[derive(Debug, Drop)]
pub struct Leaving {
    pub gem: u16,
    pub tags: ArrayVec<Tag, 4>,
    /// How many of the last bytes of the frame that was sent stand behind the tags.
    pub rest: usize,
}
