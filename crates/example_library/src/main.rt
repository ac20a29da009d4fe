//! A program that uses the crates as libraries: it sets port 257 of a unit up by five requests, and prints what becomes of a frame that
//! comes in there, and at port 258.
#![tactic(auto)]

// The names that clauses use come from specs/ of the standard library and of the crates.
ghost use Rattle.std.specs.Prelude.{◌≡◌, ◌≤◌, length, take};

use forward_plan::{Live, Verdict};
use managed_entity::class::{GEM_PORT, INTERWORK, MAPPER, VLAN};
use omci_msg::{Action, Request};
use std::alloc::{AllocError, Global};
use std::io;

/// A frame without a tag: two addresses, the type of IPv4, and two bytes more.
const FRAME: [u8; 16] = [2, 0, 0, 0, 0, 1, 2, 0, 0, 0, 0, 2, 0x08, 0x00, 0x45, 0x00];

/// A request for an instance of a class. Its contents begin with these bytes; zeros follow them.
fn request(action: Action, class: u16, instance: u16, front: &[u8]) -> Request
    requires { length front.now ≤ 32 }
    ensures { take (length front.now) result.contents ≡ front.now }
{
    let mut contents = [0; 32];
    contents[..front.len()].copy_from_slice(front);
    Request {
        tci: 1,
        action,
        wants_answer: true,
        class,
        instance,
        contents,
    }
}

/// Sets port 257 up. Where a message is at hand as bytes, `omci_msg::read` gives its request.
fn provision(live: &mut Live) {
    // Port-ID 1024, T-CONT 0x8001, direction 3 (both).
    let gem = [0x04, 0x00, 0x80, 0x01, 3];
    // GEM port 0x0401, option 5 (a mapper), service profile 0x0601.
    let interwork = [0x04, 0x01, 5, 0x06, 0x01];
    // Port 257 (0x0101), the interworking point 0x0501 for each of eight priorities, and TP type 1 behind two attributes.
    let mapper = [
        1, 1, 5, 1, 5, 1, 5, 1, 5, 1, 5, 1, 5, 1, 5, 1, 5, 1, 1, 0, 1,
    ];
    // Association type 2, port 257.
    let vlan = [2, 0x01, 0x01];
    // The mask of attribute 6, and an entry of the table: a frame without a tag gets one of VLAN 100.
    let entry = [
        0x04, 0x00, 0xf8, 0, 0, 0, 0xf8, 0, 0, 0, 0, 0x0f, 0, 0, 0, 0, 0x03, 0x24,
    ];
    live.apply(&request(Action::Create, GEM_PORT, 0x0401, &gem));
    live.apply(&request(Action::Create, INTERWORK, 0x0501, &interwork));
    live.apply(&request(Action::Create, MAPPER, 0x0601, &mapper));
    live.apply(&request(Action::Create, VLAN, 0x0701, &vlan));
    live.apply(&request(Action::Set, VLAN, 0x0701, &entry));
}

/// Bytes in hexadecimal digits.
fn digits(alloc: Global, bytes: &[u8]) -> Result<String, AllocError> {
    let mut text = String::new(alloc);
    for byte in bytes {
        write!(text, "{byte:02x}")?;
    }
    Ok(text)
}

/// Prints what becomes of a frame. The verdict borrows the frame; `append_to` alone copies its bytes.
fn show<R: Print + AllocGlobal>(rt: &R, live: &Live, port: u16, frame: &[u8]) -> io::Result<()> {
    match live.forward(port, frame) {
        Verdict::Forward { gem, frame } => {
            let mut left = Vec::new(rt.alloc());
            frame.append_to(&mut left).map_err(|_| AllocError)?;
            let left = digits(rt.alloc(), &left)?;
            println!(rt; "port {port}: leaves by GEM port {gem} as {left}")
        }
        Verdict::Drop(reason) => println!(rt; "port {port}: dropped, {reason}"),
    }
}

/// Sets the port up, and shows what becomes of the frame.
fn play<R: Print + AllocGlobal>(rt: &R, live: &mut Live) -> io::Result<()> {
    provision(live);
    show(rt, live, 257, &FRAME)?;
    show(rt, live, 258, &FRAME)
}

// It owns what is large and lends it on: a function that owns much is proved in moments where it has no branch, and else in minutes.
fn main(rt: HostRuntime) -> io::Result<()> {
    let mut live = Live::new(rt.alloc())?;
    play(&rt, &mut live)
}
