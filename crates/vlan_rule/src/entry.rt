//! The 16 bytes of an entry, and the values of its fields.
ghost use Rattle.std.specs.Prelude.{◌≡◌, ◌≤◌, ◌<◌, ◌+◌, ◌-◌, ◌*◌, ◌/◌, ◌%◌, ◌^◌, length, slice_index, EachIndex};
ghost use Rattle.vlan_rule.specs.Entry.{codes_of, entry_of, key_of, kind_of, number_of, value_of, IsTagLayout, IsField};
ghost use Rattle.vlan_rule.specs.Table.{is_deletion, is_predefined};

use crate::kind::Kind;
use crate::layout::{FILTER_INNER, FILTER_OUTER, Field, TagCodes, TagLayout};
use byteorder::{BigEndian, ByteOrder};

/// One entry of the table as it is written and kept, padding among it: four words of 32 bits, the
/// highest byte first (G.988, 9.3.13).
#[derive(Clone, Copy, Debug, PartialEq, Eq)]
pub struct Entry(pub [u8; 16]);

/// The keys of the entries of a new table.
const PREDEFINED_KEYS: [u64; 3] = [
    0xF0000000_F0000000,
    0xF0000000_E0000000,
    0xE0000000_E0000000,
];

impl Entry {
    /// Its key: the number of its first eight bytes, padding among them.
    pub fn key(&self) -> u64
        ensures { result ≡ key_of self.now.0 }
    {
        key_of(&self.0)
    }

    /// Whether it deletes the entry of its key: its last eight bytes are all 0xFF.
    pub fn is_deletion(&self) -> bool
        ensures { result ≡ is_deletion self.now.0 }
    {
        let (_, rest) = self.0.split_at(8);
        BigEndian::read_u64(rest) == u64::MAX
    }

    /// The entry of these first and last eight bytes, each as a number.
    pub(crate) fn of(key: u64, rest: u64) -> Self
        ensures { result.0 ≡ entry_of key rest }
    {
        let mut bytes = [0; 16];
        bytes[..8].copy_from_slice(&key.to_be_bytes());
        bytes[8..].copy_from_slice(&rest.to_be_bytes());
        Entry(bytes)
    }

    /// Whether its key is one of the three predefined ones.
    pub(crate) fn is_predefined(&self) -> bool
        ensures value { result ≡ is_predefined (key_of self.now.0) }
        ensures bytes { EachIndex self.now.0 (λ k. slice_index self.now.0 k < 256) }
    {
        PREDEFINED_KEYS.contains(&key_of(&self.0))
    }

    /// Its kind.
    #[tactic(auto, unfolding(crate::specs::Entry::kind_of))]
    pub(crate) fn kind(&self) -> Kind
        ensures { result ≡ kind_of self.now.0 }
    {
        Kind::of(
            self.value(FILTER_OUTER.priority),
            self.value(FILTER_INNER.priority),
        )
    }

    /// The value of a field.
    pub(crate) fn value(&self, at: Field) -> u16
        requires { IsField at }
        ensures value { result ≡ value_of at self.now.0 }
        ensures bound { result < 2 ^ (at.high + 1 - at.low) }
    {
        let width = at.high + 1 - at.low;
        ((word(&self.0, at.word) >> at.low) % (1 << width)) as u16
    }

    /// The codes of a filter or a treatment.
    pub(crate) fn codes(&self, at: TagLayout) -> TagCodes
        requires { IsTagLayout at }
        ensures { result ≡ codes_of at self.now.0 }
    {
        TagCodes {
            priority: self.value(at.priority) as u8,
            vid: self.value(at.vid),
            tpid: self.value(at.tpid) as u8,
        }
    }
}

/// The number of the first eight bytes.
fn key_of(entry: &[u8]) -> u64
    requires { length entry.now ≡ 16 }
    ensures value { result ≡ key_of entry.now }
    ensures bytes { EachIndex entry.now (λ k. slice_index entry.now k < 256) }
{
    BigEndian::read_u64(entry)
}

/// One of the four words, counted from 1.
fn word(entry: &[u8], number: usize) -> u32
    requires whole { length entry.now ≡ 16 }
    requires first { 1 ≤ number }
    requires last { number ≤ 4 }
    ensures { result ≡ number_of entry.now / 2 ^ (32 * (4 - number)) % 2 ^ 32 }
{
    let (_, rest) = entry.split_at(4 * (number - 1));
    BigEndian::read_u32(rest)
}
