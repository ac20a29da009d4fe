//! What calls do where memory is refused to them, and which calls ask for none.
//!
//! Each call that takes memory is made. Where it says that there is none, its object must be as it was, and the call is made again,
//! which succeeds where one request alone is refused. A line says for each call that all of that was as it must be, or what wasn't,
//! and whether the call was made again.
//!
//! `run`, beside this folder, refuses one request after the other. By standard input it asks for the calls that need no memory.
#![tactic(auto)]

mod asked;
mod batches;
mod control;
mod counts;
mod entities;
mod forwarding;
mod judging;
mod memory;
mod requests;
mod runs;
mod seen;
mod steady;
mod tables;

use asked::{Asked, read_asked};
use memory::Memory;
use std::process::ExitCode;
use std::sync::Wait;
use std::thread::Threads;

/// All calls, each with its line.
fn make_calls<R: Threads + Wait + Sync + Print>(rt: &R, memory: &Memory) {
    tables::make_calls(rt, memory);
    entities::make_calls(rt, memory);
    forwarding::make_calls(rt, memory);
    control::make_calls(rt, memory);
    counts::make_calls(rt, memory);
    runs::make_calls(rt, memory);
    judging::make_calls(rt, memory);
}

fn main(rt: HostRuntime) -> ExitCode {
    let memory = Memory::new(rt.alloc());
    match read_asked(&mut rt.stdin()) {
        Asked::Calls => make_calls(&rt, &memory),
        Asked::Steady(goes_on) => steady::report(&rt, &memory, goes_on),
    }
    ExitCode::from(0)
}
