//! Writers that fail, or take no more, of frames that are forwarded and of histories.
use bench_capture::FrameReader;
use bench_forward::{ForwardFault, Forwarded, Outputs, forward_frames};
use bench_history::{Extent, SeenGem};
use bench_record::{RecordedEvent, Source, TimedEvent, write_history};
use forward_plan::Live;
use omci_msg::read;
use std::alloc::{AllocError, Global};
use std::io::Write;
use std::process::Abort;
use test_draws::{PORT_257, message};
use test_fixtures::{Sink, same};
use text_writing::WriteFault;

/// A classic capture of a frame without a tag, one that ends within its type, and the first again.
const THREE: [u8; 117] = [
    0x4d, 0x3c, 0xb2, 0xa1, 2, 0, 4, 0, 0, 0, 0, 0, 0, 0, 0, 0, 0, 0, 4, 0, 1, 0, 0, 0, 0, 0, 0, 0,
    0, 0, 0, 0, 16, 0, 0, 0, 16, 0, 0, 0, 2, 0, 0, 0, 0, 1, 2, 0, 0, 0, 0, 2, 8, 0, 0x45, 0, 0, 0,
    0, 0, 0, 0, 0, 0, 13, 0, 0, 0, 13, 0, 0, 0, 2, 0, 0, 0, 0, 1, 2, 0, 0, 0, 0, 2, 8, 0, 0, 0, 0,
    0, 0, 0, 0, 16, 0, 0, 0, 16, 0, 0, 0, 2, 0, 0, 0, 0, 1, 2, 0, 0, 0, 0, 2, 8, 0, 0x45, 0,
];

/// What is written of them: a section header, the interface `gem 1024`, and a packet with a tag of VLAN 100, with the comment `frame 1`.
const FRONT: [u8; 140] = [
    0x0a, 0x0d, 0x0d, 0x0a, 28, 0, 0, 0, 0x4d, 0x3c, 0x2b, 0x1a, 1, 0, 0, 0, 0xff, 0xff, 0xff,
    0xff, 0xff, 0xff, 0xff, 0xff, 28, 0, 0, 0, 1, 0, 0, 0, 44, 0, 0, 0, 1, 0, 0, 0, 0, 0, 0, 0, 2,
    0, 8, 0, b'g', b'e', b'm', b' ', b'1', b'0', b'2', b'4', 9, 0, 1, 0, 9, 0, 0, 0, 0, 0, 0, 0,
    44, 0, 0, 0, 6, 0, 0, 0, 68, 0, 0, 0, 0, 0, 0, 0, 0, 0, 0, 0, 0, 0, 0, 0, 20, 0, 0, 0, 20, 0,
    0, 0, 2, 0, 0, 0, 0, 1, 2, 0, 0, 0, 0, 2, 0x81, 0x00, 0x00, 0x64, 0x08, 0x00, 0x45, 0x00, 1, 0,
    7, 0, b'f', b'r', b'a', b'm', b'e', b' ', b'1', 0, 0, 0, 0, 0, 68, 0, 0, 0,
];

/// A unit that was sent the messages that make port 257.
fn unit(alloc: Global) -> Result<Live, AllocError> {
    let mut live = Live::new(alloc)?;
    for digits in PORT_257 {
        if let Ok(request) = read(&message(digits)) {
            live.apply(&request);
        }
    }
    Ok(live)
}

/// Forwards that capture, which comes in at port 257.
fn forward_three<W: Write, D: Write, V: Write>(
    rt: &impl Abort,
    alloc: Global,
    outputs: &mut Outputs<W, D, V>,
) -> Forwarded {
    let live = unit(alloc).expect(rt, "a unit");
    let mut frames = FrameReader::open(alloc, THREE.as_slice()).expect(rt, "a capture");
    forward_frames(alloc, live.mib(), 257, &mut frames, outputs).expect(rt, "memory")
}

/// The bytes that a sink has taken.
fn taken<'s>(rt: &impl Abort, sink: &'s Option<Sink>) -> &'s [u8] {
    sink.as_ref().expect(rt, "a sink").bytes.as_slice()
}

/// Of the 208 bytes of the capture of the frames that leave, the writer takes 166, at most 7 at a time. So it fails in the third frame. The frame
/// that is dropped is written whole: 72 bytes behind 72.
#[test]
fn a_writer_fails_in_the_third_frame(rt: HostRuntime) {
    let mut outputs = Outputs {
        packets: Some(Sink::new(rt.alloc(), 7, 166, true)),
        dropped: Some(Sink::new(rt.alloc(), 3, 200, true)),
        verdicts: Some(Sink::new(rt.alloc(), 5, 100, true)),
    };
    let forwarded = forward_three(&rt, rt.alloc(), &mut outputs);
    same!(&rt; forwarded.ended, Err(ForwardFault::Write));
    same!(&rt; forwarded.totals.frames(), 2);
    same!(&rt; forwarded.totals.bytes(), 20);
    same!(&rt; forwarded.totals.leaving_by(1024), 1);
    same!(&rt; forwarded.totals.leaving_by(65_535), 0);
    let packets = taken(&rt, &outputs.packets);
    same!(&rt; packets.len(), 166);
    same!(&rt; packets.get(..140), Some(FRONT.as_slice()));
    same!(&rt; packets.get(140..), FRONT.get(72..98));
    same!(&rt; taken(&rt, &outputs.dropped).len(), 144);
    same!(&rt; taken(&rt, &outputs.verdicts), b"1 g 1024 entry 0 tag=8100:0:0:100\n2 d 1\n".as_slice());
}

/// The first line takes 34 bytes. No byte of the header of packets is taken.
#[test]
fn a_writer_of_lines_takes_no_more_and_one_of_packets_nothing(rt: HostRuntime) {
    let mut outputs: Outputs<Sink, Sink, Sink> = Outputs {
        packets: None,
        dropped: None,
        verdicts: Some(Sink::new(rt.alloc(), 5, 36, false)),
    };
    let forwarded = forward_three(&rt, rt.alloc(), &mut outputs);
    same!(&rt; forwarded.ended, Err(ForwardFault::Write));
    same!(&rt; forwarded.totals.frames(), 1);
    same!(&rt; taken(&rt, &outputs.verdicts), b"1 g 1024 entry 0 tag=8100:0:0:100\n2 ".as_slice());
    let mut outputs: Outputs<Sink, Sink, Sink> = Outputs {
        packets: Some(Sink::new(rt.alloc(), 7, 0, true)),
        dropped: None,
        verdicts: None,
    };
    let forwarded = forward_three(&rt, rt.alloc(), &mut outputs);
    same!(&rt; forwarded.ended, Err(ForwardFault::Write));
    same!(&rt; forwarded.totals.frames(), 0);
}

/// The header of the capture of the frames that leave stands ahead of that of the frames that are dropped.
#[test]
fn a_writer_of_dropped_frames_fails_in_its_header(rt: HostRuntime) {
    let mut outputs: Outputs<Sink, Sink, Sink> = Outputs {
        packets: Some(Sink::new(rt.alloc(), 7, 100, true)),
        dropped: Some(Sink::new(rt.alloc(), 7, 30, true)),
        verdicts: None,
    };
    let forwarded = forward_three(&rt, rt.alloc(), &mut outputs);
    same!(&rt; forwarded.ended, Err(ForwardFault::Write));
    same!(&rt; taken(&rt, &outputs.packets).len(), 28);
    same!(&rt; taken(&rt, &outputs.dropped), &FRONT[..30]);
}

/// An event of each kind but one, and fronts.
const EACH: [TimedEvent<'static>; 9] = [
    TimedEvent {
        time: 0,
        source: Some(Source {
            capture: 0,
            place: 1,
        }),
        event: RecordedEvent::Sent {
            message: &[0x00, 0xff],
        },
    },
    TimedEvent {
        time: 1,
        source: Some(Source {
            capture: 0,
            place: 2,
        }),
        event: RecordedEvent::Replied { reply: &[0x1a] },
    },
    TimedEvent {
        time: 2,
        source: None,
        event: RecordedEvent::Waited { replies: u32::MAX },
    },
    TimedEvent {
        time: 3_000_000_004,
        source: Some(Source {
            capture: 1,
            place: 12,
        }),
        event: RecordedEvent::Entered {
            port: 65535,
            extent: Extent::Whole,
            frame: &[],
        },
    },
    TimedEvent {
        time: 4_000_000_000,
        source: None,
        event: RecordedEvent::Entered {
            port: 0,
            extent: Extent::Front,
            frame: &[0x02],
        },
    },
    TimedEvent {
        time: 5_000_000_000,
        source: Some(Source {
            capture: 2,
            place: 1,
        }),
        event: RecordedEvent::Left {
            gem: SeenGem::Port(7),
            extent: Extent::Whole,
            number: u32::MAX,
            frame: &[0xc0, 0x0b],
        },
    },
    TimedEvent {
        time: u64::MAX,
        source: Some(Source {
            capture: 1,
            place: 13,
        }),
        event: RecordedEvent::Left {
            gem: SeenGem::Any,
            extent: Extent::Front,
            number: 0,
            frame: &[0xc0],
        },
    },
    TimedEvent {
        time: u64::MAX,
        source: None,
        event: RecordedEvent::Strayed {
            gem: SeenGem::Any,
            extent: Extent::Front,
            frame: &[0x0b],
        },
    },
    TimedEvent {
        time: u64::MAX,
        source: None,
        event: RecordedEvent::Lost { number: 0 },
    },
];

const EACH_TEXT: &[u8] =
    b"o 00ff\nr 1a\nw 4294967295\nf 65535 \nf 0 02..\ng 4294967295 7 c00b\ng 0 any c0..\ns any 0b..\nl 0\ne\n";

#[test]
fn each_event_has_a_line_and_a_write_that_fails_ends_them(rt: HostRuntime) {
    let mut sink = Sink::new(rt.alloc(), 3, 1_000, true);
    same!(rt; write_history(&EACH, None, &mut sink), Ok(()));
    same!(rt; sink.bytes.as_slice(), EACH_TEXT);
    let mut sink = Sink::new(rt.alloc(), 3, 20, true);
    same!(rt; write_history(&EACH, None, &mut sink), Err(WriteFault));
    same!(rt; sink.bytes.as_slice(), &EACH_TEXT[..20]);
}

/// The third capture has no name here.
const SOURCES_TEXT: &[u8] =
    b"# omci.pcap record 1 0.000000000 s\no 00ff\n# omci.pcap record 2 0.000000001 s\nr 1a\nw 4294967295\n\
# in.pcap record 12 3.000000004 s\nf 65535 \nf 0 02..\n#  record 1 5.000000000 s\ng 4294967295 7 c00b\n\
# in.pcap record 13 18446744073.709551615 s\ng 0 any c0..\ns any 0b..\nl 0\ne\n";

#[test]
fn a_remark_stands_above_each_event_that_was_seen(rt: HostRuntime) {
    let names: [&[u8]; 2] = [b"omci.pcap", b"in.pcap"];
    let mut sink = Sink::new(rt.alloc(), 3, 1_000, true);
    same!(rt; write_history(&EACH, Some(&names), &mut sink), Ok(()));
    same!(rt; sink.bytes.as_slice(), SOURCES_TEXT);
}

/// A frame that left and is one of three.
fn one_of_three(alloc: Global) -> Result<Vec<TimedEvent<'static>>, AllocError> {
    let mut events = Vec::new(alloc);
    events.push(TimedEvent {
        time: 6,
        source: None,
        event: RecordedEvent::LeftOneOf {
            gem: SeenGem::Port(65535),
            extent: Extent::Front,
            frame: &[0x2a],
            numbers: vec![in alloc; 0, 7, u32::MAX]?,
        },
    })?;
    Ok(events)
}

#[test]
fn the_frames_that_one_may_be_stand_behind_it(rt: HostRuntime) {
    let events = one_of_three(rt.alloc()).expect(&rt, "events");
    let mut sink = Sink::new(rt.alloc(), 3, 1_000, true);
    same!(rt; write_history(&events, None, &mut sink), Ok(()));
    same!(rt; sink.bytes.as_slice(), b"a 65535 2a.. 0 7 4294967295\ne\n".as_slice());
    let mut sink = Sink::new(rt.alloc(), 3, 14, false);
    same!(rt; write_history(&events, None, &mut sink), Err(WriteFault));
    same!(rt; sink.bytes.as_slice(), b"a 65535 2a.. 0".as_slice());
}
