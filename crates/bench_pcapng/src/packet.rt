//! A packet of a capture.

use std::marker::Model;

/// A packet of an Ethernet interface. Its bytes are a slice of the file.
#[derive(Drop)]
pub struct Packet<'a> {
    interface: u32,
    time: u64,
    original: u32,
    bytes: &'a [u8],
}

impl<'a> Model for Packet<'a> {
    ghost use Rattle.bench_pcapng.specs.Captured.{Captured};

    ghost Value = { Captured };

    ghost view = { λ p. record {
      interface = p.interface;
      time = p.time;
      original = p.original;
      bytes = p.bytes.now;
    } };
}

impl<'a> Packet<'a> {
    ghost use Rattle.std.specs.Prelude.{◌≡◌, nat_lt, length};

    /// The packet of these parts.
    pub(crate) fn of(interface: u32, time: u64, original: u32, bytes: &'a [u8]) -> Self
        ensures { result ≡ record {
          interface = interface;
          time = time;
          original = original;
          bytes = bytes.now;
        } }
    {
        Packet {
            interface,
            time,
            original,
            bytes,
        }
    }

    /// The number of its interface in the section, from 0.
    pub fn interface(&self) -> u32
        ensures { result ≡ self.now.interface }
    {
        self.interface
    }

    /// Its time, in nanoseconds since the epoch. A simple packet block gives none: then it is that of the packet before it in the file,
    /// or 0.
    pub fn time(&self) -> u64
        ensures { result ≡ self.now.time }
    {
        self.time
    }

    /// How many bytes the frame had.
    pub fn original_len(&self) -> u32
        ensures { result ≡ self.now.original }
    {
        self.original
    }

    /// The bytes that are stored.
    pub fn bytes(&self) -> &'a [u8]
        ensures { result.now ≡ self.now.bytes }
    {
        self.bytes
    }

    /// Whether fewer bytes are stored than the frame had: it was cut by the snap length of the capture.
    pub fn is_cut(&self) -> bool
        ensures { result ≡ nat_lt (length self.now.bytes) self.now.original }
    {
        self.bytes.len() < self.original as usize
    }
}
