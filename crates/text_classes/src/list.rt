//! The list of the classes of several ports.
use crate::form::Form;
use crate::line::{class_line, script_lines};
use crate::object::put_class;
use frame_classes::ClassExample;
use std::alloc::Global;
use std::io::Write;
use text_entities::{FORMAT, JsonText};
use text_writing::{TextFault, write_whole};

/// The list of the classes of several ports, which is written port by port: none is kept.
#[derive(Drop)]
pub struct ClassList {
    alloc: Global,
    form: Form,
    json: JsonText,
    /// How many classes are written.
    count: u64,
}

impl ClassList {
    /// A list of which nothing is written.
    pub fn new(alloc: Global, form: Form) -> ClassList {
        ClassList {
            alloc,
            form,
            json: JsonText::new(alloc),
            count: 0,
        }
    }

    /// Writes what stands in front of all classes: of JSON (RFC 8259) the object's beginning.
    pub fn begin<W: Write>(&self, writer: &mut W) -> Result<(), TextFault> {
        match self.form {
            Form::Lines | Form::Script => Ok(()),
            Form::Json => {
                write_whole(writer, FORMAT.as_bytes())?;
                self.json.begin(writer, "\"classes\":")
            }
        }
    }

    /// Writes the classes of a port.
    pub fn port<W: Write>(
        &mut self,
        port: u16,
        examples: &[ClassExample],
        writer: &mut W,
    ) -> Result<(), TextFault> {
        for example in examples {
            self.class(port, example, writer)?;
            self.count = self.count.saturating_add(1);
        }
        Ok(())
    }

    fn class<W: Write>(
        &mut self,
        port: u16,
        example: &ClassExample,
        writer: &mut W,
    ) -> Result<(), TextFault> {
        match self.form {
            Form::Lines => write_text(writer, &class_line(self.alloc, port, example)?),
            Form::Script => write_text(writer, &script_lines(self.alloc, port, example)?),
            Form::Json => {
                let mut object = self.json.object()?;
                put_class(self.alloc, &mut object, port, example)?;
                self.json.write(writer, object)
            }
        }
    }

    /// Writes what stands behind all classes: of lines how many there are, of JSON the object's end.
    pub fn end<W: Write>(&self, writer: &mut W) -> Result<(), TextFault> {
        match self.form {
            Form::Lines => {
                let count = self.count;
                write_text(writer, &format!(in self.alloc; "classes {count}\n")?)
            }
            Form::Script => Ok(()),
            Form::Json => self.json.end(writer, "}"),
        }
    }
}

fn write_text<W: Write>(writer: &mut W, text: &str) -> Result<(), TextFault> {
    write_whole(writer, text.as_bytes())?;
    Ok(())
}
