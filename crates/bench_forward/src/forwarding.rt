//! What is kept from one frame to the next, and what is done with each.
ghost use Rattle.std.specs.Prelude.{◌≡◌, ◌<◌, ◌+◌, ◌^◌, Option, OnOk, OnErr};
ghost use Rattle.std.specs.Io.KnownBytes.{Appends};
ghost use Rattle.frame_meaning.specs.Meaning.{Table, table_at};
ghost use Rattle.port_plan.specs.Leaving.{IsPlanOf};
ghost use Rattle.text_writing.specs.Written.{AppendsPart};
ghost use Rattle.bench_forward.specs.Drops.{dropped_by};
ghost use Rattle.bench_forward.specs.Entries.{number_at};
ghost use Rattle.bench_forward.specs.EntryNumbers.{AreNumbersAt};
ghost use Rattle.bench_forward.specs.Frames.{left_by};
ghost use Rattle.bench_forward.specs.Lines.{verdict_line};
ghost use Rattle.bench_forward.specs.OneFrame.{Leaves};
ghost use Rattle.bench_forward.specs.Outputs.{known_in};
ghost use Rattle.bench_forward.specs.Packets.{blocks_from, gems_behind};
ghost use Rattle.bench_forward.specs.Sizes.{FitsPacket};

use crate::drops::write_dropped;
use crate::entries::EntryNumbers;
use crate::fault::ForwardFault;
use crate::interfaces::Interfaces;
use crate::leaving::write_leaving;
use crate::line::verdict_line;
use crate::origin::Origin;
use crate::outputs::Outputs;
use crate::totals::Totals;
use bench_capture::RecordedFrame;
use forward_plan::PortPlan;
use frame_meaning::Verdict;
use mib_state::Mib;
use std::io::Write;
use text_writing::{WriteFault, write_whole};

/// By what frames are forwarded.
#[derive(Drop)]
pub(crate) struct Setting<'m, 'p> {
    pub(crate) mib: &'m Mib,
    /// The port that they come in at.
    pub(crate) port: u16,
    /// Its plan.
    pub(crate) plan: PortPlan<'p>,
    /// Those of the table in force there.
    pub(crate) entries: Option<EntryNumbers>,
    ghost planned: { IsPlanOf mib.now.entities port plan },
}

/// What is kept from one frame to the next.
#[derive(Drop)]
pub(crate) struct State {
    pub(crate) interfaces: Interfaces,
    pub(crate) totals: Totals,
}

/// Writes the frame that leaves with a verdict, if one does and it is asked for.
fn write_left<W: Write>(
    packets: &mut Option<W>,
    interfaces: &mut Interfaces,
    origin: Origin,
    verdict: &Verdict<'_>,
) -> Result<(), WriteFault>
    requires { FitsPacket verdict.now }
    ensures ok { OnOk result
        (Appends (known_in W.contents packets.old) (known_in W.contents packets.new)
        (blocks_from interfaces.old (left_by origin.number origin.time verdict.now))) }
    ensures err { OnErr result
        (AppendsPart (known_in W.contents packets.old) (known_in W.contents packets.new)
        (blocks_from interfaces.old (left_by origin.number origin.time verdict.now))) }
    ensures interfaces { interfaces.new ≡ gems_behind interfaces.old (left_by origin.number origin.time verdict.now) }
{
    let Verdict::Forward { gem, frame } = verdict else {
        return Ok(());
    };
    match packets {
        Some(writer) => write_leaving(writer, interfaces, *gem, origin, frame),
        None => {
            interfaces.note(*gem);
            Ok(())
        }
    }
}

/// Writes the frame of this number as it came in, if it is dropped and that is asked for.
fn write_lost<D: Write>(
    dropped: &mut Option<D>,
    number: u64,
    frame: &RecordedFrame<'_>,
    verdict: &Verdict<'_>,
) -> Result<(), WriteFault>
    ensures ok { OnOk result
        (Appends (known_in D.contents dropped.old) (known_in D.contents dropped.new)
        (dropped_by number frame.now verdict.now)) }
    ensures err { OnErr result
        (AppendsPart (known_in D.contents dropped.old) (known_in D.contents dropped.new)
        (dropped_by number frame.now verdict.now)) }
{
    let Verdict::Drop(reason) = verdict else {
        return Ok(());
    };
    match dropped {
        Some(writer) => write_dropped(writer, number, *reason, frame),
        None => Ok(()),
    }
}

/// Writes the line of a verdict, if it is asked for.
fn write_line<V: Write>(
    verdicts: &mut Option<V>,
    entries: &Option<EntryNumbers>,
    number: u64,
    bytes: &[u8],
    verdict: &Verdict<'_>,
) -> Result<(), WriteFault>
    ensures ok { OnOk result ((table : Option Table) → AreNumbersAt table entries.now
        → Appends (known_in V.contents verdicts.old) (known_in V.contents verdicts.new)
        (verdict_line number verdict.now (number_at table bytes.now))) }
    ensures err { OnErr result ((table : Option Table) → AreNumbersAt table entries.now
        → AppendsPart (known_in V.contents verdicts.old) (known_in V.contents verdicts.new)
        (verdict_line number verdict.now (number_at table bytes.now))) }
{
    let Some(writer) = verdicts else {
        return Ok(());
    };
    let line = verdict_line(number, verdict, entry_for(entries, bytes));
    write_whole(writer, line.as_slice())
}

/// The number of the entry that is used for a frame, where a table is in force and one of its entries is used.
fn entry_for(entries: &Option<EntryNumbers>, bytes: &[u8]) -> Option<usize>
    ensures { (table : Option Table) → AreNumbersAt table entries.now
        → result ≡ number_at table bytes.now }
{
    match entries {
        Some(numbers) => numbers.number_for(bytes),
        None => None,
    }
}

/// Writes what comes of a frame, which has this number.
fn write_frame<W: Write, D: Write, V: Write>(
    setting: &Setting<'_, '_>,
    interfaces: &mut Interfaces,
    number: u64,
    frame: &RecordedFrame<'_>,
    verdict: &Verdict<'_>,
    outputs: &mut Outputs<W, D, V>,
) -> Result<(), WriteFault>
    requires { FitsPacket verdict.now }
    ensures packets { OnOk result (Appends (known_in W.contents outputs.old.packets)
        (known_in W.contents outputs.new.packets)
        (blocks_from interfaces.old (left_by number frame.now.time verdict.now))) }
    ensures drops { OnOk result (Appends (known_in D.contents outputs.old.dropped)
        (known_in D.contents outputs.new.dropped) (dropped_by number frame.now verdict.now)) }
    ensures lines { OnOk result ((table : Option Table) → AreNumbersAt table setting.now.entries
        → Appends (known_in V.contents outputs.old.verdicts)
        (known_in V.contents outputs.new.verdicts)
        (verdict_line number verdict.now (number_at table frame.now.bytes))) }
    ensures interfaces { OnOk result (interfaces.new
        ≡ gems_behind interfaces.old (left_by number frame.now.time verdict.now)) }
    ensures packets_part { OnErr result (AppendsPart (known_in W.contents outputs.old.packets)
        (known_in W.contents outputs.new.packets)
        (blocks_from interfaces.old (left_by number frame.now.time verdict.now))) }
    ensures drops_part { OnErr result (AppendsPart (known_in D.contents outputs.old.dropped)
        (known_in D.contents outputs.new.dropped) (dropped_by number frame.now verdict.now)) }
    ensures lines_part { OnErr result ((table : Option Table)
        → AreNumbersAt table setting.now.entries
        → AppendsPart (known_in V.contents outputs.old.verdicts)
        (known_in V.contents outputs.new.verdicts)
        (verdict_line number verdict.now (number_at table frame.now.bytes))) }
{
    let time = frame.time();
    let origin = Origin { number, time };
    write_left(&mut outputs.packets, interfaces, origin, verdict)?;
    write_lost(&mut outputs.dropped, number, frame, verdict)?;
    let bytes = frame.bytes();
    match write_line(
        &mut outputs.verdicts,
        &setting.entries,
        number,
        bytes,
        verdict,
    ) {
        Ok(()) => Ok(()),
        Err(fault) => Err(fault),
    }
}

/// Forwards a frame, writes what comes of it, and counts it. One that isn't written whole isn't counted.
pub(crate) fn forward_frame<W: Write, D: Write, V: Write>(
    setting: &Setting<'_, '_>,
    state: &mut State,
    frame: &RecordedFrame<'_>,
    outputs: &mut Outputs<W, D, V>,
) -> Result<(), ForwardFault>
    requires { AreNumbersAt
        (table_at setting.now.mib.now.entities setting.now.port) setting.now.entries }
    ensures leaves { Leaves setting.now.mib.now.entities setting.now.port frame.now result
        state.old state.new (record {
          packets_before = known_in W.contents outputs.old.packets;
          packets_after = known_in W.contents outputs.new.packets;
          drops_before = known_in D.contents outputs.old.dropped;
          drops_after = known_in D.contents outputs.new.dropped;
          lines_before = known_in V.contents outputs.old.verdicts;
          lines_after = known_in V.contents outputs.new.verdicts;
        }) }
    ensures counted { OnOk result (state.new.totals.frames ≡ state.old.totals.frames + 1) }
    ensures few { OnOk result (state.old.totals.frames + 1 < 2 ^ 64) }
{
    let verdict = setting.plan.forward(frame.bytes());
    if !state.totals.has_room(&verdict) {
        return Err(ForwardFault::CountFull);
    }
    let number = state.totals.frames() + 1;
    write_frame(
        setting,
        &mut state.interfaces,
        number,
        frame,
        &verdict,
        outputs,
    )?;
    state.totals.count(&verdict, frame.is_cut());
    Ok(())
}
