//! Files read whole.
use std::alloc::Global;
use std::fs::{File, OpenFile};
use std::io::{ErrorKind, Read, Write};
use std::rt::Files;
use std::{fmt, io};
use text_writing::Status;

/// The name of standard input.
const STANDARD_INPUT: &str = "-";

/// The bytes of an open file, read into room of its size and a byte more, by which its end is found. So nothing grows, and nothing is
/// copied, while a file is read whose size is known before.
pub(crate) fn read_open<F: OpenFile + Read>(alloc: Global, file: &mut F) -> io::Result<Vec<u8>> {
    let size = usize::try_from(file.metadata()?.len()).unwrap_or(0);
    let mut bytes = Vec::with_capacity(alloc, size.saturating_add(1))?;
    file.read_to_end(&mut bytes)?;
    Ok(bytes)
}

/// The path of a file that is named to be read. `-` names standard input.
pub(crate) fn path_of(name: &str) -> &str {
    if name == STANDARD_INPUT {
        "/dev/stdin"
    } else {
        name
    }
}

/// A file that is named, opened to be read.
pub fn open_named<R: Files>(rt: &R, name: &str) -> io::Result<R::File> {
    let file = File::open(rt, path_of(name))?;
    if file.metadata()?.is_dir() {
        return Err(io::Error::from(ErrorKind::IsADirectory));
    }
    Ok(file)
}

/// Says that standard input is named more than once, if it is, and gives the status.
pub fn refuse_twice<E: Write>(names: &[&str], err: &mut E) -> Result<(), Status> {
    let mut named = 0u8;
    for name in names {
        if *name == STANDARD_INPUT {
            named = named.saturating_add(1);
        }
    }
    if named > 1 {
        let _ = err.write_all(b"cannot read -: standard input is named more than once\n");
        return Err(Status::Failed);
    }
    Ok(())
}

/// The bytes of a file.
pub fn read_whole<R: Files + Alloc<A = Global>>(rt: &R, path: &str) -> io::Result<Vec<u8>> {
    let mut file = open_named(rt, path)?;
    read_open(rt.alloc(), &mut file)
}

/// Why a file can't be had, in words of its own or in the system's.
#[derive(Clone, Copy)]
pub(crate) struct FileReason(ErrorKind);

/// The words for why a file can't be had.
pub(crate) fn words_of(kind: ErrorKind) -> FileReason {
    FileReason(kind)
}

impl fmt::Display for FileReason {
    fn fmt<W: fmt::Write>(&self, f: &mut fmt::Formatter<W>) -> fmt::Result {
        match self.0 {
            ErrorKind::NotFound => f.write_str("no such file"),
            ErrorKind::PermissionDenied => f.write_str("permission denied"),
            ErrorKind::IsADirectory => f.write_str("it is a folder"),
            ErrorKind::NotADirectory => f.write_str("a part of its path is no folder"),
            kind => write!(f, "{kind}"),
        }
    }
}

/// Says that a file can't be had, and gives the status: there is no memory for it, or it can't be opened, read or written.
pub fn report_file<E: Write>(kind: ErrorKind, wanted: &str, path: &str, err: &mut E) -> Status {
    let _ = match kind {
        ErrorKind::OutOfMemory => err.write_all(b"no memory\n"),
        _ => writeln!(err, "cannot {wanted} {path}: {}", words_of(kind)),
    };
    Status::Failed
}

/// Says why a file can't be read, first in these words, and gives the status. Where there is no memory for it, it says that alone.
pub fn report_unread<E: Write>(error: &io::Error, words: &[u8], path: &str, err: &mut E) -> Status {
    if !matches!(error.kind(), ErrorKind::OutOfMemory) {
        let _ = err.write_all(words);
    }
    report_file(error.kind(), "read", path, err)
}
