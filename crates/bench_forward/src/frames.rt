//! All frames of a capture, forwarded.
ghost use Rattle.std.specs.Prelude.{◌≡◌, [], IfOk, IfSome, OnErr, OnOk};
ghost use Rattle.std.specs.Io.KnownBytes.{Appends, Keeps};
ghost use Rattle.frame_meaning.specs.Meaning.{table_at};
ghost use Rattle.text_writing.specs.Written.{AppendsPart};
ghost use Rattle.bench_forward.specs.Blocks.{section_block};
ghost use Rattle.bench_forward.specs.Drops.{drops_header};
ghost use Rattle.bench_forward.specs.EntryNumbers.{AreNumbersAt};
ghost use Rattle.bench_forward.specs.Outcome.{Ends};
ghost use Rattle.bench_forward.specs.Outputs.{known_in};
ghost use Rattle.bench_forward.specs.Totals.{AreTotals};

use crate::block::section_block;
use crate::drops::write_drops_header;
use crate::entries::EntryNumbers;
use crate::fault::ForwardFault;
use crate::forwarding::{Setting, State, forward_frame};
use crate::interfaces::Interfaces;
use crate::outputs::Outputs;
use crate::totalling::count_all;
use crate::totals::Totals;
use bench_capture::FrameReader;
use forward_plan::Plan;
use mib_state::Mib;
use std::alloc::{AllocError, Global};
use std::io::{Read, Write};
use text_writing::{WriteFault, write_whole};

/// What came of the frames of a capture.
#[derive(Drop)]
pub struct Forwarded {
    /// Those of the frames that were forwarded and written.
    pub totals: Totals,
    /// Why there weren't more of them, if the capture didn't end.
    pub ended: Result<(), ForwardFault>,
}

/// Writes what stands before all frames that leave, if these are asked for.
fn write_header<W: Write>(packets: &mut Option<W>) -> Result<(), WriteFault>
    ensures ok { OnOk result
        (Appends (known_in W.contents packets.old) (known_in W.contents packets.new)
        section_block) }
    ensures err { OnErr result
        (AppendsPart (known_in W.contents packets.old) (known_in W.contents packets.new)
        section_block) }
{
    match packets {
        Some(writer) => write_whole(writer, &section_block()),
        None => Ok(()),
    }
}

/// The same of the frames that are dropped, which come in at this port.
fn write_drops<D: Write>(dropped: &mut Option<D>, port: u16) -> Result<(), WriteFault>
    ensures ok { OnOk result
        (Appends (known_in D.contents dropped.old) (known_in D.contents dropped.new)
        (drops_header port)) }
    ensures err { OnErr result
        (AppendsPart (known_in D.contents dropped.old) (known_in D.contents dropped.new)
        (drops_header port)) }
{
    match dropped {
        Some(writer) => write_drops_header(writer, port),
        None => Ok(()),
    }
}

/// Writes what stands before all frames in both captures, where they are asked for.
fn write_headers<W: Write, D: Write>(
    packets: &mut Option<W>,
    dropped: &mut Option<D>,
    port: u16,
) -> Result<(), WriteFault>
    ensures packets { OnOk result
        (Appends (known_in W.contents packets.old) (known_in W.contents packets.new)
        section_block) }
    ensures drops { OnOk result
        (Appends (known_in D.contents dropped.old) (known_in D.contents dropped.new)
        (drops_header port)) }
    ensures packets_part { OnErr result
        (AppendsPart (known_in W.contents packets.old) (known_in W.contents packets.new)
        section_block) }
    ensures drops_part { OnErr result
        (AppendsPart (known_in D.contents dropped.old) (known_in D.contents dropped.new)
        (drops_header port)) }
{
    write_header(packets)?;
    match write_drops(dropped, port) {
        Ok(()) => Ok(()),
        Err(fault) => Err(fault),
    }
}

/// Forwards all frames that a reader has left, from nothing on.
fn forward_all<R: Read, W: Write, D: Write, V: Write>(
    setting: &Setting<'_, '_>,
    state: &mut State,
    frames: &mut FrameReader<R>,
    outputs: &mut Outputs<W, D, V>,
) -> Result<(), ForwardFault>
    requires numbered { AreNumbersAt
        (table_at setting.now.mib.now.entities setting.now.port) setting.now.entries }
    requires gems { state.old.interfaces ≡ [] }
    requires totals { AreTotals [] 0 state.old.totals }
    ensures { IfSome frames.old.left (λ all. Ends setting.now.mib.now.entities setting.now.port all result
        (record {
          packets_before = known_in W.contents outputs.old.packets;
          packets_after = known_in W.contents outputs.new.packets;
          drops_before = known_in D.contents outputs.old.dropped;
          drops_after = known_in D.contents outputs.new.dropped;
          lines_before = known_in V.contents outputs.old.verdicts;
          lines_after = known_in V.contents outputs.new.verdicts;
        })
        state.new.totals) }
{
    write_headers(&mut outputs.packets, &mut outputs.dropped, setting.port)?;
    loop {
        match frames.advance() {
            Ok(true) => {}
            Ok(false) => return Ok(()),
            Err(fault) => return Err(ForwardFault::Read(fault)),
        }
        let frame = frames.frame().unwrap();
        if let Err(fault) = forward_frame(setting, state, &frame, outputs) {
            return Err(fault);
        }
    }
}

/// The same; but where no output is asked for, the frames are only counted.
fn forward_or_count<R: Read, W: Write, D: Write, V: Write>(
    setting: &Setting<'_, '_>,
    state: &mut State,
    frames: &mut FrameReader<R>,
    outputs: &mut Outputs<W, D, V>,
) -> Result<(), ForwardFault>
    requires numbered { AreNumbersAt
        (table_at setting.now.mib.now.entities setting.now.port) setting.now.entries }
    requires gems { state.old.interfaces ≡ [] }
    requires totals { AreTotals [] 0 state.old.totals }
    ensures { IfSome frames.old.left (λ all. Ends setting.now.mib.now.entities setting.now.port all result
        (record {
          packets_before = known_in W.contents outputs.old.packets;
          packets_after = known_in W.contents outputs.new.packets;
          drops_before = known_in D.contents outputs.old.dropped;
          drops_after = known_in D.contents outputs.new.dropped;
          lines_before = known_in V.contents outputs.old.verdicts;
          lines_after = known_in V.contents outputs.new.verdicts;
        })
        state.new.totals) }
{
    if outputs.packets.is_some() {
        return forward_all(setting, state, frames, outputs);
    }
    if outputs.dropped.is_some() {
        return forward_all(setting, state, frames, outputs);
    }
    if outputs.verdicts.is_some() {
        return forward_all(setting, state, frames, outputs);
    }
    count_all(setting, &mut state.totals, frames)
}

/// Forwards the frames of a capture that come in at a port by the managed entities, which it compiles once, and writes what comes of
/// them. It reads the capture in pieces, and holds no more memory for a longer one. Frames are numbered from 1.
///
/// To `outputs.packets` go the frames that leave, as a capture in the pcapng format: a section header, and for each frame a packet with
/// the time of its record in nanoseconds and the comment `frame N`, whose interface stands for its GEM port; `gem G`, described ahead of
/// its first packet. To `outputs.dropped` go the frames that are dropped, as they came in, likewise: all have one interface, `port P`, and
/// the comment `frame N: drop R`. To `outputs.verdicts` goes a line for each frame: `N g GEM`, or `N d R` where it is dropped for reason R,
/// and behind it ` entry K`, the number of the entry that was used in the order in which entries are tried, where one was. Of a frame that
/// leaves ` tag=TPID:PRIORITY:DEI:VID` follows for each tag with which it leaves, the outermost first, or ` untagged`.
///
/// All that it takes in memory but a longer buffer of the reader is taken before a byte is read or written: Err where it is refused. Each
/// later fault comes when it is met, and what was written before it stays; [`Forwarded`] has the totals of the frames up to it.
pub fn forward_frames<R: Read, W: Write, D: Write, V: Write>(
    alloc: Global,
    mib: &Mib,
    port: u16,
    frames: &mut FrameReader<R>,
    outputs: &mut Outputs<W, D, V>,
) -> Result<Forwarded, AllocError>
    ensures ends { IfOk result (λ forwarded.
        IfSome frames.old.left (λ all. Ends mib.now.entities port all forwarded.ended
        (record {
          packets_before = known_in W.contents outputs.old.packets;
          packets_after = known_in W.contents outputs.new.packets;
          drops_before = known_in D.contents outputs.old.dropped;
          drops_after = known_in D.contents outputs.new.dropped;
          lines_before = known_in V.contents outputs.old.verdicts;
          lines_after = known_in V.contents outputs.new.verdicts;
        })
        forwarded.totals)) }
    ensures untouched { OnErr result
        ((frames.new ≡ frames.old) × (outputs.new ≡ outputs.old)) }
{
    let mut compiled = Plan::new(alloc)?;
    let _ = compiled.compile(mib);
    let plan = compiled.port(port);
    let entries = EntryNumbers::at(alloc, mib, port)?;
    let setting = Setting {
        mib,
        port,
        plan,
        entries,
    };
    let mut state = State {
        interfaces: Interfaces::new(alloc)?,
        totals: Totals::new(alloc)?,
    };
    let ended = forward_or_count(&setting, &mut state, frames, outputs);
    Ok(Forwarded {
        totals: state.totals,
        ended,
    })
}
