//! A frame of a capture.

use std::marker::Model;

/// A frame as a capture has it. Its bytes are a slice of the file, or of the buffer that holds a piece of it.
#[derive(Drop)]
pub struct RecordedFrame<'a> {
    time: u64,
    original: u32,
    bytes: &'a [u8],
}

impl<'a> Model for RecordedFrame<'a> {
    ghost use Rattle.bench_capture.specs.Recorded.{Recorded};

    ghost Value = { Recorded };

    ghost view = { λ f. record {
      time = f.time;
      original = f.original;
      bytes = f.bytes.now;
    } };
}

impl<'a> RecordedFrame<'a> {
    ghost use Rattle.std.specs.Prelude.{◌≡◌, nat_lt, length};

    /// The frame of these parts.
    pub(crate) fn of(time: u64, original: u32, bytes: &'a [u8]) -> Self
        ensures { result ≡ record {
          time = time;
          original = original;
          bytes = bytes.now;
        } }
    {
        RecordedFrame {
            time,
            original,
            bytes,
        }
    }

    /// Its time, in nanoseconds since the epoch. A simple packet block of the pcapng format gives none: then it is that of the packet
    /// before it in the file, or 0.
    pub fn time(&self) -> u64
        ensures { result ≡ self.now.time }
    {
        self.time
    }

    /// How many bytes the frame had.
    pub fn original_len(&self) -> u32
        ensures { result ≡ self.now.original }
    {
        self.original
    }

    /// The bytes that are stored.
    pub fn bytes(&self) -> &'a [u8]
        ensures { result.now ≡ self.now.bytes }
    {
        self.bytes
    }

    /// Whether fewer bytes are stored than the frame had: it was cut by the snap length of the capture.
    pub fn is_cut(&self) -> bool
        ensures { result ≡ nat_lt (length self.now.bytes) self.now.original }
    {
        let stored = self.bytes.len();
        stored < self.original as usize
    }
}
