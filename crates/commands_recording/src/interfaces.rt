//! The GEM ports for which the interfaces of a capture are named, in the pcapng format.
//!
//! The blocks are walked beside the frames, which [`CaptureFrames`](bench_capture::CaptureFrames) gives: it says what is wrong with a block,
//! so here one that is broken ends the walk.
use std::alloc::{AllocError, Global};

/// The type of a section header block, which reads the same in either byte order.
const SECTION: u32 = 0x0a0d_0d0a;

/// The types of the blocks that describe an interface, and that hold a packet.
const INTERFACE: u32 = 1;

const OBSOLETE: u32 = 2;

const SIMPLE: u32 = 3;

const ENHANCED: u32 = 6;

/// How many bytes of an interface's description stand before its options.
const DESCRIPTION_LEN: usize = 8;

/// The code of the option that is the name of an interface.
const NAME: u16 = 2;

/// A block: its type, and its bytes between its two lengths.
#[derive(Clone, Copy)]
struct Block<'f> {
    kind: u32,
    body: &'f [u8],
}

/// An option: its code, its value, and the bytes behind it.
#[derive(Clone, Copy)]
struct NamedOption<'f> {
    code: u16,
    value: &'f [u8],
    rest: &'f [u8],
}

/// The interfaces of a capture, up to behind a packet.
#[derive(Drop)]
pub(crate) struct Interfaces<'f> {
    // Whether the section has the highest byte of a number first.
    high_first: bool,
    // The GEM ports for which the section's interfaces are named, in order.
    gems: Vec<Option<u16>>,
    rest: &'f [u8],
}

/// The number in the first four bytes, or None where there are fewer.
fn number_of(high_first: bool, bytes: &[u8]) -> Option<u32> {
    match bytes {
        [a, b, c, d, ..] if high_first => Some(u32::from_be_bytes([*a, *b, *c, *d])),
        [a, b, c, d, ..] => Some(u32::from_le_bytes([*a, *b, *c, *d])),
        _ => None,
    }
}

/// The number in the first two bytes, or None where there are fewer.
fn short_of(high_first: bool, bytes: &[u8]) -> Option<u16> {
    match bytes {
        [a, b, ..] if high_first => Some(u16::from_be_bytes([*a, *b])),
        [a, b, ..] => Some(u16::from_le_bytes([*a, *b])),
        _ => None,
    }
}

/// The option at the front of some bytes, or None where there is none, or it is cut.
fn first_option(high_first: bool, bytes: &[u8]) -> Option<NamedOption<'_>> {
    let code = short_of(high_first, bytes)?;
    let length = usize::from(short_of(high_first, bytes.get(2..)?)?);
    let behind = bytes.get(4..)?;
    let value = behind.get(..length)?;
    let rest = behind.get((length + 3) / 4 * 4..)?;
    Some(NamedOption { code, value, rest })
}

/// The name among the options of an interface, if it has one.
fn name_of(high_first: bool, options: &[u8]) -> Option<&[u8]> {
    let mut rest = options;
    for _ in 0..options.len() {
        let option = first_option(high_first, rest)?;
        match option.code {
            0 => return None,
            NAME => return Some(option.value),
            _ => rest = option.rest,
        }
    }
    None
}

/// The GEM port for which an interface is named: `gem` and its number, one space between.
fn gem_of(name: &[u8]) -> Option<u16> {
    let digits = name.strip_prefix(b"gem ")?;
    let mut gem = 0u16;
    for byte in digits {
        if !byte.is_ascii_digit() {
            return None;
        }
        gem = gem.checked_mul(10)?.checked_add(u16::from(*byte & 15))?;
    }
    if digits.is_empty() { None } else { Some(gem) }
}

impl<'f> Interfaces<'f> {
    /// The interfaces of a capture in front of its first block.
    pub(crate) fn new(alloc: Global, file: &'f [u8]) -> Self {
        Interfaces {
            high_first: true,
            gems: Vec::new(alloc),
            rest: file,
        }
    }

    /// Takes the next block; None at the end, and where it is broken.
    fn take_block(&mut self) -> Option<Block<'f>> {
        let bytes = self.rest;
        let kind = number_of(self.high_first, bytes)?;
        if kind == SECTION {
            self.high_first = matches!(bytes.get(8..12)?, [0x1a, 0x2b, 0x3c, 0x4d]);
        }
        let length = number_of(self.high_first, bytes.get(4..)?)? as usize;
        let body = bytes.get(8..length.checked_sub(4)?)?;
        self.rest = bytes.get(length..)?;
        Some(Block { kind, body })
    }

    /// Adds the interface that a block describes.
    fn describe(&mut self, body: &[u8]) -> Result<(), AllocError> {
        let options = body.get(DESCRIPTION_LEN..).unwrap_or(&[]);
        let name = name_of(self.high_first, options);
        self.gems.push(name.and_then(|name| gem_of(name)))?;
        Ok(())
    }

    /// The number of the interface of a packet, or None where a block holds none.
    fn interface_of(&self, block: &Block<'_>) -> Option<usize> {
        match block.kind {
            ENHANCED => Some(number_of(self.high_first, block.body)? as usize),
            SIMPLE => Some(0),
            OBSOLETE => Some(usize::from(short_of(self.high_first, block.body)?)),
            _ => None,
        }
    }

    /// The GEM port for which the interface of the next packet is named; None where it isn't named so.
    pub(crate) fn next_gem(&mut self) -> Result<Option<u16>, AllocError> {
        for _ in 0..self.rest.len() {
            let Some(block) = self.take_block() else {
                break;
            };
            match block.kind {
                SECTION => self.gems.truncate(0),
                INTERFACE => self.describe(block.body)?,
                _ => {
                    if let Some(number) = self.interface_of(&block) {
                        return Ok(self.gems.get(number).copied().flatten());
                    }
                }
            }
        }
        Ok(None)
    }
}
