//! The captures of which a history is made, read whole.
use bench_history::SeenGem;
use bench_record::{Side, Tap};
use command_words::{LeftBy, RecordWords, read_left, read_numbered, read_skewed};
use commands_files::{read_whole, refuse_twice, report_file, report_value, without_memory};
use std::alloc::{AllocError, Global};
use std::io::Write;
use std::rt::Files;
use text_writing::Status;

/// Where the frames of a capture were taken.
#[derive(Clone, Copy)]
pub(crate) enum Place {
    /// All at this one.
    At(Tap),
    /// Behind the unit, each at the GEM port for which its interface is named.
    ByInterface,
}

impl Place {
    /// On which side of the unit it is.
    pub(crate) fn side(self) -> Side {
        match self {
            Place::At(Tap::Omci) => Side::Omci,
            Place::At(Tap::Into { .. }) => Side::Into,
            Place::At(Tap::OutOf { .. }) | Place::ByInterface => Side::OutOf,
        }
    }
}

/// A capture that is asked for.
#[derive(Clone, Copy)]
pub(crate) struct Asked<'a> {
    pub(crate) place: Place,
    /// The name of its file.
    pub(crate) name: &'a str,
    /// What is added to its times, in nanoseconds, if that is asked for.
    pub(crate) skew: Option<i64>,
}

/// A capture that was read.
#[derive(Drop)]
pub(crate) struct CaptureFile<'a> {
    pub(crate) asked: Asked<'a>,
    pub(crate) bytes: Vec<u8>,
}

/// Asks for a capture behind others.
fn ask<'a>(asked: &mut Vec<Asked<'a>>, place: Place, name: &'a str) -> Result<(), AllocError> {
    asked.push(Asked {
        place,
        name,
        skew: None,
    })?;
    Ok(())
}

/// Asks for captures of OMCI frames.
fn ask_omci<'a>(asked: &mut Vec<Asked<'a>>, names: &[&'a str]) -> Result<(), AllocError> {
    for name in names {
        ask(asked, Place::At(Tap::Omci), name)?;
    }
    Ok(())
}

/// Asks for captures of the frames that were sent into ports, or gives the status where a text names none.
fn ask_into<'a, E: Write>(
    asked: &mut Vec<Asked<'a>>,
    texts: &[&'a str],
    err: &mut E,
) -> Result<(), Status> {
    for text in texts {
        let Some(numbered) = read_numbered(text) else {
            let expected = "a number of 0 to 65535, = and the name of a file";
            return Err(report_value(text, "--into <PORT=FILE>", expected, err));
        };
        let tap = Tap::Into {
            port: numbered.number,
        };
        if ask(asked, Place::At(tap), numbered.file).is_err() {
            return Err(without_memory(err));
        }
    }
    Ok(())
}

/// Where frames left whose GEM ports are known so.
fn place_of(by: LeftBy) -> Place {
    match by {
        LeftBy::Gem(gem) => Place::At(Tap::OutOf {
            gem: SeenGem::Port(gem),
        }),
        LeftBy::Any => Place::At(Tap::OutOf { gem: SeenGem::Any }),
        LeftBy::Interface => Place::ByInterface,
    }
}

/// Asks for captures of the frames that left, or gives the status where a text names none.
fn ask_out_of<'a, E: Write>(
    asked: &mut Vec<Asked<'a>>,
    texts: &[&'a str],
    err: &mut E,
) -> Result<(), Status> {
    for text in texts {
        let Some(left) = read_left(text) else {
            let expected =
                "a number of 0 to 65535 or any, = and the name of a file, or the name of a pcapng file alone";
            return Err(report_value(text, "--out-of <GEM=FILE>", expected, err));
        };
        if ask(asked, place_of(left.by), left.file).is_err() {
            return Err(without_memory(err));
        }
    }
    Ok(())
}

/// Sets what is added to the times of the captures of a file. Whether there are some, and it wasn't set before.
fn set_skew(asked: &mut Vec<Asked<'_>>, file: &str, nanoseconds: i64) -> bool {
    let mut set = false;
    for capture in asked.iter_mut() {
        if capture.name != file {
            continue;
        }
        if capture.skew.is_some() {
            return false;
        }
        capture.skew = Some(nanoseconds);
        set = true;
    }
    set
}

/// Sets what is added to the times of captures, or gives the status where a text says it of none, or of one again.
fn set_skews<E: Write>(
    asked: &mut Vec<Asked<'_>>,
    texts: &[&str],
    err: &mut E,
) -> Result<(), Status> {
    for text in texts {
        let set = match read_skewed(text) {
            Some(skewed) => set_skew(asked, skewed.file, skewed.nanoseconds),
            None => false,
        };
        if !set {
            let expected =
                "a file of --omci, --into or --out-of, each once, = and its milliseconds, as 0.25 or -3";
            return Err(report_value(text, "--skew <FILE=MS>", expected, err));
        }
    }
    Ok(())
}

/// The captures that the words ask for, or the status where one of them asks for nothing.
pub(crate) fn read_asked<'a, E: Write>(
    alloc: Global,
    words: &RecordWords<'a>,
    err: &mut E,
) -> Result<Vec<Asked<'a>>, Status> {
    let mut asked = Vec::new(alloc);
    if ask_omci(&mut asked, &words.omci).is_err() {
        return Err(without_memory(err));
    }
    ask_into(&mut asked, &words.into, err)?;
    ask_out_of(&mut asked, &words.out_of, err)?;
    set_skews(&mut asked, &words.skews, err)?;
    Ok(asked)
}

/// The names of the files of captures.
pub(crate) fn names_of<'a>(alloc: Global, asked: &[Asked<'a>]) -> Result<Vec<&'a str>, AllocError> {
    let mut names = Vec::with_capacity(alloc, asked.len())?;
    for capture in asked {
        names.push(capture.name)?;
    }
    Ok(names)
}

/// Reads captures whole, or gives the status where one can't be had.
pub(crate) fn read_captures<'a, R: Files + Alloc<A = Global>, E: Write>(
    rt: &R,
    asked: &[Asked<'a>],
    names: &[&str],
    err: &mut E,
) -> Result<Vec<CaptureFile<'a>>, Status> {
    refuse_twice(names, err)?;
    let mut captures = Vec::new(rt.alloc());
    for capture in asked {
        let bytes = match read_whole(rt, capture.name) {
            Ok(bytes) => bytes,
            Err(error) => return Err(report_file(error.kind(), "read", capture.name, err)),
        };
        let file = CaptureFile {
            asked: *capture,
            bytes,
        };
        if captures.push(file).is_err() {
            return Err(without_memory(err));
        }
    }
    Ok(captures)
}
