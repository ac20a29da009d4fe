//! What of a frame counts for its class.
use crate::source::Packet;

/// A part of a frame by which its class may differ. Bytes are counted from 0. A field that a frame is too short for is 0.
#[derive(Clone, Copy, Debug, PartialEq, Eq)]
pub enum Field {
    /// The number of bytes, where those behind the last field are one with it.
    Length,
    /// The type at byte 12, behind the addresses.
    FirstType,
    /// The type at byte 16, behind a first tag.
    SecondType,
    /// The type at byte 20, behind two tags.
    ThirdType,
    /// The VID in the two bytes from 14, as in a first tag.
    FirstVid,
    /// The VID in the two bytes from 18, as in a second tag.
    SecondVid,
    /// The same bits of the two bytes from 22, which are no tag's.
    ThirdVid,
    /// The priority in byte 14.
    FirstPriority,
    /// The priority in byte 18.
    SecondPriority,
    /// The drop eligible indicator in byte 14, 0 or 1.
    FirstEligible,
    /// The drop eligible indicator in byte 18, 0 or 1.
    SecondEligible,
}

/// Nothing of a frame lies behind so many bytes that counts.
pub const LONG: u16 = 24;

/// How many fields there are.
pub const FIELD_COUNT: usize = 11;

impl Field {
    ghost use Rattle.std.specs.Prelude.{◌≡◌, ◌<◌, ◌≤◌};
    ghost use Rattle.frame_rows.specs.Field.{end_of, fields, place_of, type_behind, vid_behind};

    /// All fields, in the order in which frames are told apart by them.
    pub const ALL: [Field; FIELD_COUNT] = [
        Field::Length,
        Field::FirstType,
        Field::SecondType,
        Field::ThirdType,
        Field::FirstVid,
        Field::SecondVid,
        Field::ThirdVid,
        Field::FirstPriority,
        Field::SecondPriority,
        Field::FirstEligible,
        Field::SecondEligible,
    ];

    /// Where it stands among them.
    pub fn place(self) -> usize
        ensures value { result ≡ place_of self }
        ensures bound { result < 11 }
    {
        self as usize
    }

    /// The least length of a frame that has the field.
    pub fn end(self) -> u16
        ensures { result ≡ end_of self }
    {
        match self {
            Field::Length => 0,
            Field::FirstType => 14,
            Field::FirstVid | Field::FirstPriority | Field::FirstEligible => 16,
            Field::SecondType => 18,
            Field::SecondVid | Field::SecondPriority | Field::SecondEligible => 20,
            Field::ThirdType => 22,
            Field::ThirdVid => 24,
        }
    }

    /// The type that stands behind so many tags, under 3.
    pub(crate) fn type_behind(tags: u8) -> Field
        ensures { result ≡ type_behind tags }
    {
        match tags {
            0 => Field::FirstType,
            1 => Field::SecondType,
            _ => Field::ThirdType,
        }
    }

    /// The VID in the two bytes behind that type, or the same bits of them.
    pub(crate) fn vid_behind(tags: u8) -> Field
        ensures { result ≡ vid_behind tags }
    {
        match tags {
            0 => Field::FirstVid,
            1 => Field::SecondVid,
            _ => Field::ThirdVid,
        }
    }
}

/// A value of each field.
#[derive(Clone, Copy, Debug, PartialEq, Eq)]
pub struct Values {
    values: [u16; FIELD_COUNT],
}

impl Values {
    ghost use Rattle.std.specs.Prelude.{◌≡◌, ◌<◌, length, replicate};
    ghost use Rattle.frame_rows.specs.Field.{value_at, with_value};
    ghost use Rattle.frame_rows.specs.Words.{control_by, limit_of, packet_before, words_by};

    /// The value 0 of each field.
    pub fn zero() -> Values
        ensures { result.values ≡ replicate 11 0 }
    {
        Values {
            values: [0; FIELD_COUNT],
        }
    }

    pub fn get(&self, field: Field) -> u16
        ensures value { result ≡ value_at field self.now }
        ensures eleven { length self.now.values ≡ 11 }
    {
        self.values[field.place()]
    }

    /// The same with another value of one field.
    pub fn with(&self, field: Field, value: u16) -> Values
        ensures { result ≡ with_value field value self.now }
    {
        let mut values = self.values;
        values[field.place()] = value;
        Values { values }
    }

    /// The packet that a type says, behind which a field stands.
    pub fn packet(&self, field: Field) -> Packet
        ensures { result ≡ packet_before field self.now }
    {
        let ethertype = match field {
            Field::FirstVid | Field::FirstPriority => Field::FirstType,
            Field::SecondVid | Field::SecondPriority => Field::SecondType,
            _ => Field::ThirdType,
        };
        Packet::of(self.get(ethertype))
    }

    /// The value that one sends where none is asked for: VLAN 1 in a tag, and the first byte of a packet.
    pub fn plain(&self, field: Field) -> u16
        ensures { result < limit_of field }
    {
        match (field, self.packet(field)) {
            (Field::FirstVid | Field::SecondVid, Packet::Other) => 1,
            (Field::FirstVid | Field::SecondVid | Field::ThirdVid, Packet::Ipv4) => 0x500,
            (Field::FirstPriority | Field::SecondPriority, Packet::Ipv4) => 2,
            (Field::FirstPriority | Field::SecondPriority, Packet::Ipv6) => 3,
            _ => 0,
        }
    }

    /// The two bytes with this priority, this drop eligible indicator and this VID, as a tag has them.
    fn control(&self, priority: Field, eligible: Field, vid: Field) -> u16
        ensures { result ≡ control_by priority eligible vid self.now }
    {
        let eligible = u16::from(self.get(eligible) == 1);
        self.get(priority) % 8 * 0x2000 + eligible * 0x1000 + self.get(vid) % 0x1000
    }

    /// The six words of a frame from byte 12 on.
    pub fn words(&self) -> [u16; 6]
        ensures { result ≡ words_by self.now }
    {
        let first = self.control(Field::FirstPriority, Field::FirstEligible, Field::FirstVid);
        let second = self.control(
            Field::SecondPriority,
            Field::SecondEligible,
            Field::SecondVid,
        );
        let packet = self.packet(Field::ThirdVid);
        [
            self.get(Field::FirstType),
            first,
            self.get(Field::SecondType),
            second,
            self.get(Field::ThirdType),
            packet.first_bits() + self.get(Field::ThirdVid) % 0x1000,
        ]
    }
}
