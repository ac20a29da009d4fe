//! A large file read by several threads, each into memory of its own.
use crate::files::{open_named, read_open};
use crate::written::drop_mark;
use bench_pcapng::is_pcapng;
use capture_pieces::{OVERLAP, Pieces};
use std::alloc::Global;
use std::fs::File;
use std::io::ErrorKind;
use std::os::unix::fs::FileExt;
use std::rt::Files;
use std::thread::Threads;
use std::{io, thread};

/// From how many bytes on a file is read by several threads.
const LARGE: u64 = 1 << 23;

/// How many threads read it.
const READERS: usize = 4;

/// How many bytes a thread reads at once.
const STEP: usize = 1 << 18;

/// The part of a file from a place on: so many bytes, or all if there are fewer. There is room for what is put behind it: the front of a
/// record, or of a line.
fn read_part(alloc: Global, file: &File, from: u64, size: usize) -> io::Result<Vec<u8>> {
    let mut part = Vec::with_capacity(alloc, size.saturating_add(OVERLAP))?;
    for _ in 0..u64::MAX {
        let filled = part.len();
        let step = size.saturating_sub(filled).min(STEP);
        if step == 0 {
            break;
        }
        part.resize(filled + step, 0)?;
        let at = from.saturating_add(filled as u64);
        let got = match file.read_at(&mut part[filled..], at) {
            Ok(got) => got,
            Err(error) if error.kind() == ErrorKind::Interrupted => {
                part.truncate(filled);
                continue;
            }
            Err(error) => return Err(error),
        };
        part.truncate(filled.saturating_add(got));
        if got == 0 {
            break;
        }
    }
    Ok(part)
}

/// Whether a file is large and can be read from any place on.
fn is_large(file: &File) -> io::Result<bool> {
    let about = file.metadata()?;
    Ok(about.is_file() && about.len() >= LARGE)
}

/// The parts of a file, which threads have read side by side.
fn read_parts<R: Alloc<A = Global> + Threads + Sync>(
    rt: &R,
    file: &File,
) -> io::Result<Vec<Vec<u8>>> {
    let alloc = rt.alloc();
    let len = file.metadata()?.len();
    let size = usize::try_from(len.div_ceil(READERS as u64)).unwrap_or(usize::MAX);
    let read = thread::map_indices(
        rt,
        alloc,
        READERS,
        &|reader: usize| {
            read_part(
                alloc,
                file,
                (reader as u64).saturating_mul(size as u64),
                size,
            )
        },
    )?;
    let mut parts = Vec::with_capacity(alloc, READERS)?;
    for part in read {
        parts.push(part?)?;
    }
    Ok(parts)
}

/// Whether a file begins as one in the pcapng format, whose blocks want one slice.
fn begins_pcapng(file: &File) -> io::Result<bool> {
    let mut magic = [0; 4];
    file.read_exact_at(&mut magic, 0)?;
    Ok(is_pcapng(&magic))
}

/// A capture that was read.
#[derive(Drop)]
pub enum Capture {
    /// A large one in the classic format, each part of which a thread read.
    InPieces(Pieces),
    /// Another, whole.
    Whole(Vec<u8>),
}

/// The capture in a file. It is opened once, since a named pipe has what was written only for who opened it first.
pub fn read_capture<R: Files<File = File> + Alloc<A = Global> + Threads + Sync>(
    rt: &R,
    path: &str,
) -> io::Result<Capture> {
    let mut file = open_named(rt, path)?;
    if is_large(&file)? && !begins_pcapng(&file)? {
        let parts = read_parts(rt, &file)?;
        return Ok(Capture::InPieces(Pieces::join(rt.alloc(), parts)?));
    }
    Ok(Capture::Whole(read_open(rt.alloc(), &mut file)?))
}

/// A history that was read.
#[derive(Drop)]
pub enum History {
    /// A large one, each part of which a thread read.
    InPieces(bench_history::Pieces),
    /// Another, whole.
    Whole(Vec<u8>),
}

/// The open file of a history.
#[derive(Drop)]
pub struct HistoryFile {
    file: File,
    is_large: bool,
}

impl HistoryFile {
    /// Opens the file. It is opened once too.
    pub fn open<R: Files<File = File> + Alloc<A = Global>>(
        rt: &R,
        path: &str,
    ) -> io::Result<HistoryFile> {
        let file = open_named(rt, path)?;
        Ok(HistoryFile {
            is_large: is_large(&file)?,
            file,
        })
    }

    /// Whether it may take long to read it.
    pub fn is_large(&self) -> bool {
        self.is_large
    }

    /// The history in it.
    pub fn read<R: Alloc<A = Global> + Threads + Sync>(&mut self, rt: &R) -> io::Result<History> {
        if !self.is_large {
            return Ok(History::Whole(read_open(rt.alloc(), &mut self.file)?));
        }
        let mut parts = read_parts(rt, &self.file)?;
        if let Some(first) = parts.first_mut() {
            drop_mark(first);
        }
        let pieces = bench_history::Pieces::join(rt.alloc(), parts)?;
        Ok(History::InPieces(pieces))
    }
}
