//! onuctl answers OMCI messages, and forwards Ethernet frames upstream, as an optical network unit does.
#![tactic(auto)]

use command_line::{Words, read_words, report_words, usual_words};
use commands_captures::forward;
use commands_comparing::{diff, hitless};
use commands_covering::cover;
use commands_expecting::expect;
use commands_files::Unread;
use commands_judging::judge_history;
use commands_looking::{draw_graph, explain_frame, lint, show_mib, show_rules};
use commands_migrating::migrate;
use commands_recording::record;
use commands_running::run;
use commands_scripts::{decode_script, encode_text, replay_script, show_topic, topic_of};
use std::alloc::{AllocError, Global};
use std::fs::File;
use std::io::{ErrorKind, IsTerminal, Read, Write};
use std::process::ExitCode;
use std::rt::{Clock, Env, Files};
use std::sync::Wait;
use std::thread::Threads;
use std::{env, io};
use text_writing::Status;

/// The words of the command line, the program's name first, as its grammar has them.
fn words(rt: &(impl Env + Alloc<A = Global>)) -> io::Result<Vec<String>> {
    let mut words = Vec::new(rt.alloc());
    for word in env::args(rt)? {
        words.push(word)?;
    }
    Ok(usual_words(rt.alloc(), &words)?)
}

/// The same, lent.
fn lent(alloc: Global, words: &[String]) -> Result<Vec<&str>, AllocError> {
    let mut lent = Vec::with_capacity(alloc, words.len())?;
    for word in words {
        lent.push(word.as_str())?;
    }
    Ok(lent)
}

/// Says why the words can't be taken, and gives the status: there is no memory for them, or one isn't UTF-8.
fn without_words<E: Write>(error: &io::Error, err: &mut E) -> Status {
    let text = match error.kind() {
        ErrorKind::OutOfMemory => "no memory\n",
        _ => "error: a word is not UTF-8\n",
    };
    let _ = err.write_all(text.as_bytes());
    Status::Failed
}

/// Does what the words ask for, and gives the status.
fn obey<
    R: Files<File = File> + Alloc<A = Global> + Threads + Wait + Clock + Sync,
    I: Read + IsTerminal,
    O: Write,
    E: Write + IsTerminal + Send,
>(rt: &R, words: &Words<'_>, input: &mut I, out: &mut O, err: &mut E) -> Status {
    match words {
        Words::Replay(words) => replay_script(rt, words, input, out, err),
        Words::Run(words) => run(rt, words, out, err),
        Words::Decode(words) => decode_script(rt, words, input, out, err),
        Words::Encode(words) => encode_text(rt, words, input, out, err),
        Words::Mib(words) => show_mib(rt, words, out, err),
        Words::Rules(words) => show_rules(rt, words, out, err),
        Words::Explain(words) => explain_frame(rt, words, out, err),
        Words::Judge(words) => judge_history(rt, words, input, out, err),
        Words::Forward(words) => forward(rt, words, out, err),
        Words::Record(words) => record(rt, words, out, err),
        Words::Lint(words) => lint(rt, words, out, err),
        Words::Graph(words) => draw_graph(rt, words, out, err),
        Words::Cover(words) => cover(rt, words, out, err),
        Words::Diff(words) => diff(rt, words, out, err),
        Words::Hitless(words) => hitless(rt, words, out, err),
        Words::Expect(words) => expect(rt, words, input, out, err),
        Words::Migrate(words) => migrate(rt, words, out, err),
    }
}

/// Does what the words of the command line ask for, and gives the status.
fn answer<
    R: Files<File = File> + Alloc<A = Global> + Threads + Wait + Clock + Sync,
    I: Read + IsTerminal,
    O: Write,
    E: Write + IsTerminal + Send,
>(rt: &R, words: &[&str], input: &mut I, out: &mut O, err: &mut E) -> Status {
    let alloc = rt.alloc();
    if let Some(topic) = topic_of(words) {
        return show_topic(alloc, topic, out, err);
    }
    match read_words(alloc, words) {
        Ok(words) => obey(rt, &words, input, out, err),
        Err(error) => report_words(&error, out, err),
    }
}

fn main(rt: HostRuntime) -> ExitCode {
    let unread = Unread::new();
    let (mut out, mut err) = (unread.watch(rt.stdout()), unread.silence(rt.stderr()));
    let status = match words(&rt) {
        Ok(words) => match lent(rt.alloc(), &words) {
            Ok(lent) => answer(&rt, &lent, &mut rt.stdin(), &mut out, &mut err),
            Err(error) => without_words(&error.into(), &mut err),
        },
        Err(error) => without_words(&error, &mut err),
    };
    ExitCode::from(unread.status(status).code())
}
