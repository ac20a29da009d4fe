//! Reads and writes that fail, of scripts in words. Lines by hand and drawn ones are asked of the program (`tests/said_in_words`).
use std::io;
use std::io::{ErrorKind, Read};
use std::test::Fail;
use test_fixtures::{Sink, same};
use text_encode::{EncodeFault, decode_source, encode};
use text_writing::DecodeFault;

/// A reader whose first read fails.
#[derive(Drop)]
struct Broken;

impl Read for Broken {
    fn read(&mut self, _buf: &mut [u8]) -> io::Result<usize> {
        Err(io::Error::from(ErrorKind::TimedOut))
    }
}

#[test]
fn a_read_that_fails_writes_nothing(rt: HostRuntime) -> Result<(), Fail> {
    let (mut script, mut mistakes) = (Vec::new(rt.alloc()), Vec::new(rt.alloc()));
    let outcome = encode(rt.alloc(), 1, &mut Broken, &mut script, &mut mistakes);
    same!(rt; outcome, Err(EncodeFault::Read));
    same!(rt; script.len() + mistakes.len(), 0);
    let outcome = decode_source(rt.alloc(), &mut Broken, &mut script);
    same!(rt; outcome, Err(DecodeFault::Read));
    same!(rt; script.len(), 0);
    Ok(())
}

#[test]
fn a_write_that_fails_ends_with_a_front(rt: HostRuntime) -> Result<(), Fail> {
    for room in 0usize..9 {
        let mut sink = Sink::new(rt.alloc(), 2, room, room % 2 == 0);
        let (mut reader, mut mistakes) = (&b"raw 0102"[..], Vec::new(rt.alloc()));
        let outcome = encode(rt.alloc(), 1, &mut reader, &mut sink, &mut mistakes);
        let is_whole = room >= 7;
        same!(rt; outcome.is_ok(), is_whole, "{room}");
        let front = "o 0102\n".get(0..room.min(7)).unwrap_or("");
        same!(rt; sink.bytes.as_slice(), front.as_bytes(), "{room}");
    }
    Ok(())
}
