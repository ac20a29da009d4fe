//! How much a history has of what.
use bench_judge::Counts;
use std::fmt;

/// How many frames were sent: each has one of the four ends, an open one among them.
pub(crate) fn frames_of(counts: &Counts) -> usize {
    let seen = counts.forwarded.saturating_add(counts.dropped);
    seen.saturating_add(counts.lost).saturating_add(counts.open)
}

/// A line of messages and replies, and one of frames, without its line feed. Behind the frames by their ends stand the other counts that
/// are over 0.
#[derive(Clone, Copy)]
pub(crate) struct CountWords<'j>(pub(crate) &'j Counts);

impl fmt::Display for CountWords<'_> {
    fn fmt<W: fmt::Write>(&self, f: &mut fmt::Formatter<W>) -> fmt::Result {
        let (messages, accepted) = (self.0.messages, self.0.accepted);
        let (replies, frames) = (self.0.replies, frames_of(self.0));
        let (forwarded, dropped, unended) = (self.0.forwarded, self.0.dropped, self.0.open);
        writeln!(
            f,
            "messages {messages} accepted {accepted} replies {replies}"
        )?;
        write!(
            f,
            "frames {frames} forwarded {forwarded} dropped {dropped} open {unended}"
        )?;
        write_other(f, "strays", self.0.strays)?;
        write_other(f, "doubtful", self.0.doubtful)?;
        write_other(f, "lost", self.0.lost)?;
        write_other(f, "cut", self.0.cut)
    }
}

/// Writes a count that stands only where it is over 0.
fn write_other<W: fmt::Write>(f: &mut fmt::Formatter<W>, name: &str, count: usize) -> fmt::Result {
    if count > 0 {
        write!(f, " {name} {count}")
    } else {
        Ok(())
    }
}

/// The members of how much a history has of what.
#[derive(Clone, Copy)]
pub(crate) struct CountMembers<'j>(pub(crate) &'j Counts);

impl fmt::Display for CountMembers<'_> {
    fn fmt<W: fmt::Write>(&self, f: &mut fmt::Formatter<W>) -> fmt::Result {
        let (messages, accepted, replies) = (self.0.messages, self.0.accepted, self.0.replies);
        let (forwarded, dropped, unended) = (self.0.forwarded, self.0.dropped, self.0.open);
        let (strays, doubtful) = (self.0.strays, self.0.doubtful);
        let (lost, cut) = (self.0.lost, self.0.cut);
        write!(
            f,
            "\"messages\":{messages},\"accepted\":{accepted},\"replies\":{replies},"
        )?;
        write!(
            f,
            "\"frames\":{{\"forwarded\":{forwarded},\"dropped\":{dropped},\"open\":{unended},"
        )?;
        write!(
            f,
            "\"strays\":{strays},\"doubtful\":{doubtful},\"lost\":{lost},\"cut\":{cut}}}"
        )
    }
}
