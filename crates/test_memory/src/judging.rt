//! Judgements of histories.
use crate::memory::Memory;
use crate::seen::{REFUSED_AGAIN, Seen, must, report};
use bench_judge::{Answer, JudgeFault, JudgeSettings, Judgement, Wrong, judge};

/// Everything is looked at.
const SETTINGS: JudgeSettings = JudgeSettings {
    modelled: false,
    repeats: false,
    unordered: false,
    strays: false,
    padded: false,
};

/// Port 257 is made, and sends its frame.
const EXPLAINED: &[u8] = b"\
    o 0001440a010c0401040080010300000000000000000000000000000000000000000000000000000000000028\n\
    r 0001240a010c0401000000000000000000000000000000000000000000000000000000000000000000000028\n\
    o 0002440a010a0501040105060100000000000000000000000000000000000000000000000000000000000028\n\
    o 0003440a00820601010105010501050105010501050105010501010001000000000000000000000000000028\n\
    w\n\
    f 257 02000000000102000000000208004500\n\
    g 0 1024 02000000000102000000000208004500\n\
    e\n";

/// The same, and then it sends a frame of two by another GEM port.
const WRONG_FRAME: &[u8] = b"\
    o 0001440a010c0401040080010300000000000000000000000000000000000000000000000000000000000028\n\
    r 0001240a010c0401000000000000000000000000000000000000000000000000000000000000000000000028\n\
    o 0002440a010a0501040105060100000000000000000000000000000000000000000000000000000000000028\n\
    o 0003440a00820601010105010501050105010501050105010501010001000000000000000000000000000028\n\
    w\n\
    f 257 02000000000102000000000208004500\n\
    f 257 02000000000102000000000208004500\n\
    g 1 1024 02000000000102000000000208004500\n\
    g 0 1025 02000000000102000000000208004500\n";

/// A GEM port is made, and the reply says that it was there.
const WRONG_REPLY: &[u8] = b"\
    o 0001440a010c0401040080010300000000000000000000000000000000000000000000000000000000000028\n\
    r 0001240a010c0401070000000000000000000000000000000000000000000000000000000000000000000028\n";

/// A reply comes to nothing.
const UNASKED: &[u8] = b"\n\
    r 0001240a010c0401070000000000000000000000000000000000000000000000000000000000000000000028\n";

/// A frame leaves that was never sent.
const STRAY: &[u8] = b"\
    w\n\
    f 257 02000000000102000000000208004500\n\
    s any 02000000000102000000000208004500..\n";

/// One of two frames leaves, both of which no version forwards.
const ONE_OF: &[u8] = b"\
    w\n\
    f 257 02000000000102000000000208004500\n\
    f 258 02000000000102000000000208004500\n\
    a 1024 02000000000102000000000208004500 0 1\n";

/// Whether a judgement is that of the first history.
fn is_explained(judgement: &Judgement<'_>) -> bool {
    let Judgement::Explained(explanation) = judgement else {
        return false;
    };
    let [step] = explanation.steps.as_slice() else {
        return false;
    };
    explanation.passes(false)
        && explanation.counts.accepted == 3
        && step.version == 3
        && step.line == 6
}

/// The line that deviates, and what is wrong with it, by its kind.
fn deviation(judgement: &Judgement<'_>) -> (usize, &'static str) {
    let Judgement::Deviates(deviation) = judgement else {
        return (0, "");
    };
    let kind = match &deviation.wrong {
        Wrong::Unasked { .. } => "unasked",
        Wrong::Reply(_) => "reply",
        Wrong::Stray { .. } => "stray",
        Wrong::OneOf(wrong) => match wrong.candidates.as_slice() {
            [first, second] if first.number == 0 && second.sent_line == 3 => "one of",
            _ => "",
        },
        Wrong::Frame(frame) => match frame.runs.as_slice() {
            [first, second] if first.from == 1 && second.to == 3 => match &second.answer {
                Answer::Left(_) => "frame",
                Answer::Dropped(_) => "",
            },
            _ => "",
        },
    };
    (deviation.line, kind)
}

/// Judges a history, again where there was no memory.
fn call_judge(memory: &Memory, history: &[u8], line: usize, kind: &'static str) -> Seen {
    let judged = match judge(memory.first(), &[], history, &SETTINGS) {
        Err(JudgeFault::NoMemory) => judge(memory.again(), &[], history, &SETTINGS),
        judged => judged,
    };
    let Ok(judgement) = judged else {
        return Err(REFUSED_AGAIN);
    };
    let is_as_wanted = if line == 0 {
        is_explained(&judgement)
    } else {
        deviation(&judgement) == (line, kind)
    };
    must(is_as_wanted, "another judgement")
}

pub(crate) fn make_calls<R: Print>(rt: &R, memory: &Memory) {
    for (call, history, line, kind) in [
        ("judge", EXPLAINED, 0, ""),
        ("judge of a wrong frame", WRONG_FRAME, 9, "frame"),
        ("judge of a wrong reply", WRONG_REPLY, 2, "reply"),
        ("judge of a reply to nothing", UNASKED, 2, "unasked"),
        ("judge of a stray", STRAY, 3, "stray"),
        ("judge of one of two frames", ONE_OF, 4, "one of"),
    ] {
        report(rt, memory, call, call_judge(memory, history, line, kind));
    }
}
