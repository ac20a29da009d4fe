//! Objects of JSON (RFC 8259), a line each.
use json::Writer;
use std::alloc::{AllocError, Global};
use std::fmt::Display;
use std::io::Write;
use text_writing::{TextFault, write_whole};

/// The front of each object that a command writes: the number of the format of its keys.
pub const FORMAT: &str = "{\"format\":1,";

/// Objects of JSON that are written into one array, a line each.
#[derive(Drop)]
pub struct JsonText {
    /// Takes the memory of each object.
    alloc: Global,
    /// Whether an object is written.
    has_object: bool,
}

impl JsonText {
    /// Before the first object.
    pub fn new(alloc: Global) -> JsonText {
        JsonText {
            alloc,
            has_object: false,
        }
    }

    /// Begins the array, behind what stands in front of it.
    pub fn begin<W: Write>(&self, writer: &mut W, front: &str) -> Result<(), TextFault> {
        write_whole(writer, front.as_bytes())?;
        write_whole(writer, b"[")?;
        Ok(())
    }

    /// A text for the members of the next object.
    pub fn object(&self) -> Result<Writer, AllocError> {
        let mut object = Writer::new(Vec::new(self.alloc));
        object.begin_object()?;
        Ok(object)
    }

    /// Ends an object, and writes it on a line of its own.
    pub fn write<W: Write>(&mut self, writer: &mut W, mut object: Writer) -> Result<(), TextFault> {
        object.end_object()?;
        let separator: &[u8] = if self.has_object { b",\n" } else { b"\n" };
        write_whole(writer, separator)?;
        write_whole(writer, &object.into_inner())?;
        self.has_object = true;
        Ok(())
    }

    /// Ends the array, before what stands behind it.
    pub fn end<W: Write>(&self, writer: &mut W, behind: &str) -> Result<(), TextFault> {
        write_whole(writer, b"\n]")?;
        write_whole(writer, behind.as_bytes())?;
        write_whole(writer, b"\n")?;
        Ok(())
    }
}

/// Puts a member that is a number.
pub fn put_number(object: &mut Writer, key: &str, number: u64) -> Result<(), AllocError> {
    object.key(key)?;
    object.u64(number)
}

/// Puts a member that is a text.
pub fn put_text(object: &mut Writer, key: &str, text: &str) -> Result<(), AllocError> {
    object.key(key)?;
    object.string(text)
}

/// Puts a member that is true or false.
pub fn put_flag(object: &mut Writer, key: &str, flag: bool) -> Result<(), AllocError> {
    object.key(key)?;
    object.boolean(flag)
}

/// Puts a member that is what is displayed.
pub fn put_words<D: Display>(
    alloc: Global,
    object: &mut Writer,
    key: &str,
    words: &D,
) -> Result<(), AllocError> {
    let text = format!(in alloc; "{words}")?;
    put_text(object, key, &text)
}
