//! What standard input asks for.
use std::io::Read;

/// What the program is to do.
#[derive(Clone, Copy)]
pub(crate) enum Asked {
    /// The calls that take memory.
    Calls,
    /// The set-up of what needs no memory, then whether all of it is done too, and then requests until one is refused.
    Steady(bool),
}

/// What the first bytes ask for: `setup`, `steady`, or else the calls.
pub(crate) fn read_asked<R: Read>(reader: &mut R) -> Asked {
    let mut bytes = [0u8; 16];
    let text = match reader.read(&mut bytes) {
        Ok(count) if count <= 16 => &bytes[..count],
        _ => &[],
    };
    if text.starts_with(b"setup") {
        return Asked::Steady(false);
    }
    if text.starts_with(b"steady") {
        return Asked::Steady(true);
    }
    Asked::Calls
}
