//! The numbers and the kinds of findings that the program writes, in words.
use bench_capture::CaptureFileFault;
use frame_meaning::Reason;
use omci_msg::MsgFault;
use std::alloc::{AllocError, Global};
use std::io::Write;
use text_finding_kinds::put_kinds;
use text_messages::result_name;
use text_writing::{LookFault, Status, report_look, write_whole};

/// Which numbers are said in words.
#[derive(Clone, Copy)]
pub enum Topic {
    /// The reasons for which frames are dropped.
    Reasons,
    /// The results of replies.
    Results,
    /// The faults of messages and of captures.
    Faults,
    /// The kinds of findings, with their severities.
    Findings,
    /// The statuses with which the program ends.
    Statuses,
}

/// The numbers that words ask for behind `help`, or None where they ask for something else.
pub fn topic_of(words: &[&str]) -> Option<Topic> {
    match words {
        [_, help, topic] if *help == "help" => match *topic {
            "reasons" => Some(Topic::Reasons),
            "results" => Some(Topic::Results),
            "faults" => Some(Topic::Faults),
            "findings" => Some(Topic::Findings),
            "statuses" => Some(Topic::Statuses),
            _ => None,
        },
        _ => None,
    }
}

/// Puts the reasons.
fn put_reasons(text: &mut String) -> Result<(), AllocError> {
    text.push_str(
        "Why a frame is dropped, with the step that finds it: `d N` of replay, `drop N` of run and forward\n",
    )?;
    for reason in &Reason::ALL {
        let (number, step) = (reason.code(), reason.step());
        writeln!(text, "  {number}  {step}: {reason}")?;
    }
    Ok(())
}

/// Puts the results.
fn put_results(text: &mut String) -> Result<(), AllocError> {
    text.push_str(
        "The result of a reply, the first byte of its contents (ITU-T G.988, annex A)\n",
    )?;
    for number in 0..=9 {
        if number != 8 {
            let name = result_name(number);
            writeln!(text, "  {number}  {name}")?;
        }
    }
    Ok(())
}

/// Puts the faults.
fn put_faults(text: &mut String) -> Result<(), AllocError> {
    text.push_str("Why a message has no effect: `m N` of replay\n")?;
    for number in MsgFault::OF_REQUESTS {
        if let Some(words) = MsgFault::words_of(number) {
            writeln!(text, "  {number}  {words}")?;
        }
    }
    text.push_str(
        "Why a capture isn't read: `capture fault K at N` of run, forward, record and explain\n",
    )?;
    for fault in &CaptureFileFault::KINDS {
        let (number, words) = (fault.code(), fault.words());
        writeln!(text, "  {number}  {words}")?;
    }
    Ok(())
}

/// Puts the kinds of findings.
fn put_findings(text: &mut String) -> Result<(), AllocError> {
    text.push_str(
        "What lint finds, the most severe first: `--ignore KIND` leaves findings of a kind out\n",
    )?;
    put_kinds(text)
}

/// When the program ends with a status, in words.
fn words_of(status: Status) -> &'static str {
    match status {
        Status::Done => {
            "all is written; judge explained the whole history, lint found nothing as severe as --fail-on, diff no difference, hitless no torn moment, expect nothing that doesn't hold, and migrate a way"
        }
        Status::Failed => {
            "the words are wrong, a read or a write failed, or there is no memory or no room"
        }
        Status::Bad => {
            "a line, a text or a capture is bad, or --strict met a message that wasn't carried out"
        }
        Status::Found => {
            "judge found a deviation, lint something as severe as --fail-on, diff a difference, hitless a torn moment, or expect what doesn't hold, and all is written; or migrate found no way"
        }
        Status::Undecided => {
            "judge found no deviation, but the history may be cut, or nothing of it was judged; all is written"
        }
        Status::Unread => "nobody reads standard output any more",
    }
}

/// Puts the statuses.
fn put_statuses(text: &mut String) -> Result<(), AllocError> {
    text.push_str("The status with which the program ends\n")?;
    for status in &Status::ALL {
        let (number, words) = (status.code(), words_of(*status));
        writeln!(text, "  {number}  {words}")?;
    }
    Ok(())
}

/// What is said of a topic.
fn text_of(alloc: Global, topic: Topic) -> Result<String, AllocError> {
    let mut text = String::new(alloc);
    match topic {
        Topic::Reasons => put_reasons(&mut text)?,
        Topic::Results => put_results(&mut text)?,
        Topic::Faults => put_faults(&mut text)?,
        Topic::Findings => put_findings(&mut text)?,
        Topic::Statuses => put_statuses(&mut text)?,
    }
    Ok(text)
}

/// Writes the numbers of a topic in words to `out`, and why not, or not all, to `err`. It gives the status.
pub fn show_topic<O: Write, E: Write>(
    alloc: Global,
    topic: Topic,
    out: &mut O,
    err: &mut E,
) -> Status {
    let outcome = match text_of(alloc, topic) {
        Ok(text) => write_whole(out, text.as_bytes()).map_err(|_| LookFault::Write),
        Err(AllocError) => Err(LookFault::NoMemory),
    };
    report_look(&outcome, err)
}
