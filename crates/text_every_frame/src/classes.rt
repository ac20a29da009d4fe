//! The classes of the frames that come in at ports.
use frame_classes::classes;
use mib_state::Mib;
use std::alloc::Global;
use std::io::Write;
use text_classes::{ClassList, Form};
use text_writing::TextFault;

/// Writes the classes of the frames of at least so many bytes that come in at these ports, each with a frame, as many small texts. Those of one
/// port at a time are held.
pub fn write_classes<W: Write>(
    alloc: Global,
    mib: &Mib,
    ports: &[u16],
    least: u16,
    form: Form,
    writer: &mut W,
) -> Result<(), TextFault> {
    let mut list = ClassList::new(alloc, form);
    list.begin(writer)?;
    for port in ports {
        let examples = classes(alloc, mib, *port, usize::from(least))?;
        list.port(*port, &examples, writer)?;
    }
    list.end(writer)
}
