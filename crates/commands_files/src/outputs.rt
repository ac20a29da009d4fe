//! Files that a command writes: each beside its name, which it gets once it is whole.
use crate::files::{path_of, report_file, words_of};
use crate::reports::without_memory;
use std::alloc::{AllocError, Global};
use std::io::{BufWriter, ErrorKind, Write};
use std::os::unix::fs::MetadataExt;
use std::rt::Files;
use std::{fs, io};
use text_writing::Status;

/// How many bytes are gathered before a file gets them.
const GATHERED: usize = 1 << 18;

/// What stands behind the name of a file that isn't whole yet.
const PARTIAL: &str = ".partial";

/// A file that an output may not be: the name by which it is found, and the one that the user gave.
#[derive(Clone, Copy)]
pub struct Taken<'n> {
    path: &'n str,
    name: &'n str,
}

impl<'n> Taken<'n> {
    /// An input by the name that the user gave.
    fn input(name: &'n str) -> Self {
        Taken {
            path: path_of(name),
            name,
        }
    }
}

/// The names of a file that is written beside its name.
#[derive(Drop)]
struct Names {
    partial: String,
    whole: String,
}

/// An output of a command. It notes why a write of it failed.
#[derive(Drop)]
pub struct Output<'n, W: Write + Drop> {
    writer: BufWriter<W>,
    name: &'n str,
    // None where what is written goes to the file itself, as to a device or a pipe.
    names: Option<Names>,
    failed: Option<ErrorKind>,
}

impl<'n, W: Write + Drop> Output<'n, W> {
    /// An output that gets what is written as it comes.
    pub fn direct(alloc: Global, name: &'n str, writer: W) -> io::Result<Self> {
        let writer = BufWriter::with_capacity(alloc, GATHERED, writer)?;
        Ok(Self::of(name, writer, None))
    }

    fn of(name: &'n str, writer: BufWriter<W>, names: Option<Names>) -> Self {
        Output {
            writer,
            name,
            names,
            failed: None,
        }
    }

    fn note(&mut self, error: &io::Error) {
        self.failed = Some(error.kind());
    }

    /// Whether a write failed.
    pub(crate) fn has_failed(&self) -> bool {
        self.failed.is_some()
    }

    /// The file under the name that it has while it is written.
    pub fn taken(&self) -> Option<Taken<'_>> {
        let names = self.names.as_ref()?;
        Some(Taken {
            path: names.partial.as_str(),
            name: self.name,
        })
    }

    /// Says why a write failed, if one did.
    pub fn report_failed<E: Write>(&self, err: &mut E) {
        if let Some(kind) = self.failed {
            let _ = writeln!(err, "write failed in {}: {}", self.name, words_of(kind));
        }
    }

    /// Says under which name the part stands that was written.
    pub fn report_partial<E: Write>(&self, err: &mut E) {
        if let Some(names) = &self.names {
            let _ = writeln!(
                err,
                "{} isn't whole: what was written is in {}",
                self.name, names.partial
            );
        }
    }

    /// Gives the file its name, and gives the status.
    pub fn finish<R: Files, E: Write>(&self, rt: &R, err: &mut E) -> Status {
        let Some(names) = &self.names else {
            return Status::Done;
        };
        match fs::rename(rt, names.partial.as_str(), names.whole.as_str()) {
            Ok(()) => Status::Done,
            Err(error) => {
                self.report_partial(err);
                report_file(error.kind(), "write", self.name, err)
            }
        }
    }

    /// Lets go of a file of which nothing is written yet.
    pub fn discard<R: Files>(&self, rt: &R) {
        if let Some(names) = &self.names {
            let _ = fs::remove_file(rt, names.partial.as_str());
        }
    }
}

impl<W: Write + Drop> Write for Output<'_, W> {
    fn write(&mut self, bytes: &[u8]) -> io::Result<usize> {
        match self.writer.write(bytes) {
            Ok(taken) => Ok(taken),
            Err(error) => {
                self.note(&error);
                Err(error)
            }
        }
    }

    fn flush(&mut self) -> io::Result<()> {
        match self.writer.flush() {
            Ok(()) => Ok(()),
            Err(error) => {
                self.note(&error);
                Err(error)
            }
        }
    }
}

/// Whether two names are those of one file: the device that holds it, and its number there. A name of no file is that of no other.
fn are_one<R: Files>(rt: &R, one: &str, other: &str) -> bool {
    let Ok(one) = fs::metadata(rt, one) else {
        return false;
    };
    let Ok(other) = fs::metadata(rt, other) else {
        return false;
    };
    one.is_file() && other.is_file() && one.dev() == other.dev() && one.ino() == other.ino()
}

/// The names of a file that is written: a link stays, and the file that it leads to is written.
fn names_of<R: Files + Alloc<A = Global>>(rt: &R, name: &str) -> Result<Names, AllocError> {
    let alloc = rt.alloc();
    let mut whole = String::new(alloc);
    let is_link = fs::symlink_metadata(rt, name).is_ok_and(|about| about.is_symlink());
    match fs::canonicalize(rt, name) {
        Ok(path) if is_link => whole.push_str(path.to_str().unwrap_or(name))?,
        _ => whole.push_str(name)?,
    }
    let mut partial = String::new(alloc);
    partial.push_str(&whole)?;
    partial.push_str(PARTIAL)?;
    Ok(Names { partial, whole })
}

/// Opens a file that is written, and gives the output, or the status where it can't be opened.
fn open_output<'n, R: Files + Alloc<A = Global>, E: Write>(
    rt: &R,
    name: &'n str,
    names: Option<Names>,
    err: &mut E,
) -> Result<Output<'n, R::File>, Status> {
    let path = match &names {
        Some(names) => names.partial.as_str(),
        None => name,
    };
    let file = match fs::create(rt, path) {
        Ok(file) => file,
        Err(error) => return Err(report_file(error.kind(), "write", name, err)),
    };
    let Ok(writer) = BufWriter::with_capacity(rt.alloc(), GATHERED, file) else {
        if names.is_some() {
            let _ = fs::remove_file(rt, path);
        }
        return Err(without_memory(err));
    };
    Ok(Output::of(name, writer, names))
}

/// Whether a file that is written is one that is taken already, by its name or by the one that it has until it is whole. It says so.
fn is_taken<R: Files, E: Write>(
    rt: &R,
    name: &str,
    names: &Names,
    taken: &Taken<'_>,
    err: &mut E,
) -> bool {
    if !are_one(rt, name, taken.path) && !are_one(rt, &names.partial, taken.path) {
        return false;
    }
    let _ = writeln!(
        err,
        "cannot write {name}: it is the same file as {}",
        taken.name
    );
    true
}

/// Whether a file that is written is another output, if there is that one already. It says so.
fn is_other<R: Files, E: Write>(
    rt: &R,
    name: &str,
    names: &Names,
    other: Option<Taken<'_>>,
    err: &mut E,
) -> bool {
    match other {
        Some(taken) => is_taken(rt, name, names, &taken, err),
        None => false,
    }
}

/// The output of this name, or the status where it can't be written. A file is written beside its name, so an older one stays as it is
/// until the new one is whole. A device or a pipe gets what is written as it comes. An output that is one of the inputs, or another
/// output, by whatever name, is refused.
pub fn create_output<'n, R: Files + Alloc<A = Global>, E: Write>(
    rt: &R,
    name: &'n str,
    inputs: &[&str],
    one: Option<Taken<'_>>,
    other: Option<Taken<'_>>,
    err: &mut E,
) -> Result<Output<'n, R::File>, Status> {
    if fs::metadata(rt, name).is_ok_and(|about| !about.is_file()) {
        return open_output(rt, name, None, err);
    }
    let Ok(names) = names_of(rt, name) else {
        return Err(without_memory(err));
    };
    for input in inputs {
        if is_taken(rt, name, &names, &Taken::input(input), err) {
            return Err(Status::Failed);
        }
    }
    if is_other(rt, name, &names, one, err) || is_other(rt, name, &names, other, err) {
        return Err(Status::Failed);
    }
    open_output(rt, name, Some(names), err)
}
