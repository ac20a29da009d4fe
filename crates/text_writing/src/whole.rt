//! Writing bytes whole, by single writes.
ghost use Rattle.std.specs.Prelude.{◌≡◌, ◌<◌, OnOk, OnErr, length};
ghost use Rattle.std.specs.Io.KnownBytes.{Appends};
ghost use Rattle.text_writing.specs.Written.{AppendsPart};

use std::io::Write;
use thiserror::Error;

/// A write failed, or took no byte.
#[derive(Clone, Copy, Debug, PartialEq, Eq, Error)]
#[error("write failed")]
pub struct WriteFault;

/// Writes the bytes by as many writes as it takes. The first that fails or takes no byte ends it: then a front of the bytes is
/// written. Nothing is tried again. Where there is nothing to write, no write is made.
pub fn write_whole<W: Write>(writer: &mut W, bytes: &[u8]) -> Result<(), WriteFault>
    ensures ok { OnOk result (Appends (W.contents writer.old) (W.contents writer.new) bytes.now) }
    ensures some { OnErr result (0 < length bytes.now) }
    ensures err { OnErr result
        (AppendsPart (W.contents writer.old) (W.contents writer.new) bytes.now) }
{
    let mut written = 0;
    while written < bytes.len() {
        let (_, rest) = bytes.split_at(written);
        match writer.write(rest) {
            Ok(taken) if taken > 0 => written += taken,
            Ok(_) | Err(_) => return Err(WriteFault),
        }
    }
    Ok(())
}
