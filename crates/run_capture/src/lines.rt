//! The lines of a run, put behind a text.
ghost use Rattle.std.specs.Prelude.{◌≡◌, ◌++◌, ℕ, OnOk, IfOk};
ghost use Rattle.frame_stats.specs.Figures.{Figure, FramesTo, counted};
ghost use Rattle.frame_stats.specs.Ports.{in_map};
ghost use Rattle.run_capture.specs.Lines.{accepted_line, batch_line, batch_lines_from, count_line, drop_lines, figure_lines, gem_lines, number_line};

use frame_meaning::Reason;
use frame_stats::Counts;
use itoa::Buffer;
use run_lanes::Ran;
use std::alloc::{AllocError, Global};
use std::collections::BTreeMap;

/// Puts a line of words and a number.
fn put_number(text: &mut Vec<u8>, words: &[u8], number: u64) -> Result<(), AllocError>
    ensures { OnOk result (text.new.items ≡ text.old.items ++ number_line words.now number) }
{
    let mut digits = Buffer::new();
    text.extend_from_slice(words)?;
    text.extend_from_slice(digits.format(number).as_bytes())?;
    text.extend_from_slice(b"\n")
}

/// Puts the line of a batch.
fn put_batch(
    text: &mut Vec<u8>,
    number: usize,
    version: u64,
    frames: usize,
) -> Result<(), AllocError>
    ensures { OnOk result (text.new.items ≡ text.old.items ++ batch_line number version frames) }
{
    let mut digits = Buffer::new();
    text.extend_from_slice(b"batch ")?;
    text.extend_from_slice(digits.format(number).as_bytes())?;
    text.extend_from_slice(b" version ")?;
    text.extend_from_slice(digits.format(version).as_bytes())?;
    text.extend_from_slice(b" frames ")?;
    text.extend_from_slice(digits.format(frames).as_bytes())?;
    text.extend_from_slice(b"\n")
}

/// Puts the line of a count that isn't 0.
fn put_count(text: &mut Vec<u8>, word: &[u8], number: usize, count: u64) -> Result<(), AllocError>
    ensures { OnOk result (text.new.items ≡ text.old.items ++ count_line word.now number count) }
{
    if count == 0 {
        return Ok(());
    }
    let mut digits = Buffer::new();
    text.extend_from_slice(word)?;
    text.extend_from_slice(digits.format(number).as_bytes())?;
    text.extend_from_slice(b" ")?;
    text.extend_from_slice(digits.format(count).as_bytes())?;
    text.extend_from_slice(b"\n")
}

/// Puts the lines of all batches, of so many frames in batches of a size.
fn put_batches(
    text: &mut Vec<u8>,
    size: usize,
    frames: usize,
    versions: &[u64],
) -> Result<(), AllocError>
    ensures { OnOk result (text.new.items ≡ text.old.items
        ++ batch_lines_from 0 size frames versions.now) }
{
    let mut left = frames;
    let mut number = 0;
    for version in versions {
        put_batch(text, number, *version, size.min(left))?;
        left = left.saturating_sub(size);
        number += 1;
    }
    Ok(())
}

/// Puts the lines of the frames that are dropped.
fn put_drops(text: &mut Vec<u8>, counts: &Counts) -> Result<(), AllocError>
    ensures { OnOk result (text.new.items ≡ text.old.items ++ drop_lines (counted counts.now)) }
{
    for place in 0..Reason::COUNT {
        put_count(text, b"drop ", place + 1, counts.drops[place])?;
    }
    Ok(())
}

/// Puts the lines of the frames that leave by each of these GEM ports.
fn put_entries(text: &mut Vec<u8>, ports: &BTreeMap<u16, u64>) -> Result<(), AllocError>
    ensures { OnOk result ((of : Figure → ℕ)
        → ((port : ℕ) → of (FramesTo port) ≡ in_map ports.now port)
        → text.new.items ≡ text.old.items ++ gem_lines of) }
{
    for (gem, frames) in ports {
        put_count(text, b"gem ", usize::from(*gem), *frames)?;
    }
    Ok(())
}

/// Puts the lines of the frames that leave, by ascending GEM port.
fn put_gems(alloc: Global, text: &mut Vec<u8>, counts: &Counts) -> Result<(), AllocError>
    ensures { OnOk result (text.new.items ≡ text.old.items ++ gem_lines (counted counts.now)) }
{
    let ports = counts.ports.in_order(alloc)?;
    put_entries(text, &ports)?;
    Ok(())
}

/// Puts the lines of counts.
fn put_counts(alloc: Global, text: &mut Vec<u8>, counts: &Counts) -> Result<(), AllocError>
    ensures { OnOk result (text.new.items ≡ text.old.items ++ figure_lines (counted counts.now)) }
{
    put_number(text, b"frames ", counts.frames)?;
    put_number(text, b"bytes ", counts.bytes)?;
    put_drops(text, counts)?;
    put_gems(alloc, text, counts)
}

/// All lines of a run of so many frames in batches of a size.
pub(crate) fn lines_of(
    alloc: Global,
    ran: &Ran,
    size: usize,
    frames: usize,
) -> Result<Vec<u8>, AllocError>
    ensures { IfOk result (λ text. text.items ≡
        accepted_line ran.now.accepted ++ batch_lines_from 0 size frames ran.now.versions.items
        ++ figure_lines (counted ran.now.counts)) }
{
    let mut text = Vec::new(alloc);
    put_number(&mut text, b"accepted ", ran.accepted)?;
    put_batches(&mut text, size, frames, &ran.versions)?;
    put_counts(alloc, &mut text, &ran.counts)?;
    Ok(text)
}
