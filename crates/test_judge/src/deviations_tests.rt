//! Every deviation of a history behind a script, whole and in pieces.
use bench_history::Pieces;
use bench_judge::{
    Deviations, Findings, JudgeFault, JudgeSettings, Stage, Watch, judge_all, judge_all_pieces,
};
use bench_start::read_start;
use omci_msg::Request;
use std::alloc::Global;
use std::process::Abort;
use test_fixtures::{holds, same};

/// A script that sets port 257 up, with a frame and a remark.
const START: &str =
    "o 0001440a010c0401040080010300000000000000000000000000000000000000000000000000000000000028\n\
    # a remark\n\
    o 0002440a010a0501040105060100000000000000000000000000000000000000000000000000000000000028\n\
    f 257 02000000000102000000000208004500\n\
    o 0003440a00820601010105010501050105010501050105010501010001000000000000000000000000000028\n";

/// What is seen of it then: the reply to its last message, a frame, and two strays.
const HISTORY: &str =
    "r 0003240a00820601000000000000000000000000000000000000000000000000000000000000000000000028\n\
    f 257 02000000000102000000000208004500\n\
    g 0 1024 02000000000102000000000208004500\n\
    s 7 00\n\
    s any 11..\n\
    e\n";

/// Counts what it is told.
#[derive(Drop)]
struct Counting {
    told: usize,
}

impl Watch for Counting {
    fn reached(&mut self, _stage: Stage) {
        self.told = self.told.saturating_add(1);
    }
}

/// The line of a deviation by its place, or 0 where there are fewer.
fn line_at(deviations: &Deviations<'_>, place: usize) -> usize {
    match deviations.list.get(place) {
        Some(deviation) => deviation.line,
        None => 0,
    }
}

/// The lines of up to three deviations, and whether there are more; 0 where the history is explained.
fn lines_of(rt: &impl Abort, found: Result<Findings<'_>, JudgeFault>) -> ([usize; 3], bool) {
    match found.expect(rt, "a history") {
        Findings::Explained(_) => ([0, 0, 0], false),
        Findings::Deviates(deviations) => {
            let lines = [
                line_at(&deviations, 0),
                line_at(&deviations, 1),
                line_at(&deviations, 2),
            ];
            (lines, deviations.more)
        }
    }
}

/// The settings, with strays that are allowed or not.
fn settings(strays: bool) -> JudgeSettings {
    JudgeSettings {
        modelled: false,
        repeats: false,
        unordered: false,
        strays,
        padded: false,
    }
}

/// Compares what is found with so many deviations at most, of the history whole and in two pieces.
fn look(
    rt: &impl Abort,
    alloc: Global,
    start: &[Request],
    most: usize,
    wanted: ([usize; 3], bool),
) {
    let settings = settings(false);
    let mut counting = Counting { told: 0 };
    let history = HISTORY.as_bytes();
    let whole = judge_all(alloc, start, history, &settings, most, &mut counting);
    same!(rt; lines_of(rt, whole), wanted, "at most {most}");
    holds!(rt; counting.told > 0, "nothing was told");
    let mut parts = Vec::new(alloc);
    let (front, behind) = history.split_at(40);
    parts
        .push(front.to_vec(alloc).expect(rt, "room"))
        .expect(rt, "room");
    parts
        .push(behind.to_vec(alloc).expect(rt, "room"))
        .expect(rt, "room");
    let pieces = Pieces::join(alloc, parts).expect(rt, "room for pieces");
    let found = judge_all_pieces(alloc, start, &pieces, &settings, most, &mut counting);
    same!(rt; lines_of(rt, found), wanted, "in pieces, at most {most}");
}

#[test]
fn every_deviation_behind_a_script_is_found_up_to_as_many_as_are_asked_for(rt: HostRuntime) {
    let start = read_start(rt.alloc(), START.as_bytes()).expect(&rt, "a script");
    same!(rt; start.len(), 3);
    for (most, wanted) in [
        (9, ([4, 5, 0], false)),
        (2, ([4, 5, 0], false)),
        (1, ([4, 0, 0], true)),
    ] {
        look(&rt, rt.alloc(), &start, most, wanted);
    }
}

#[test]
fn what_is_explained_has_no_deviations(rt: HostRuntime) {
    let start = read_start(rt.alloc(), START.as_bytes()).expect(&rt, "a script");
    let mut counting = Counting { told: 0 };
    let (history, settings) = (HISTORY.as_bytes(), settings(true));
    let found = judge_all(rt.alloc(), &start, history, &settings, 9, &mut counting);
    holds!(rt; matches!(found, Ok(Findings::Explained(_))), "it isn't explained");
}
