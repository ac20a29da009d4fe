//! One row of a MIB upload.
ghost use Rattle.std.specs.Prelude.{◌≡◌, ◌≤◌, ◌<◌, ◌+◌, ◌-◌, ◌^◌, nat_le, length, Some};
ghost use Rattle.mib_upload.specs.Upload.{row_contents};
ghost use Rattle.mib_upload.specs.Rows.{begun_row, with_attribute, row_room};

use arrayvec::ArrayVec;
use byteorder::{BigEndian, ByteOrder};
use managed_entity::padded;
use std::marker::Model;

/// One row of a MIB upload (ITU-T G.988, annex A): some attributes of one instance.
#[derive(Drop)]
pub struct Row {
    /// The class of the instance.
    pub class: u16,
    /// The number of the instance.
    pub instance: u16,
    /// The mask of the attributes that the row holds: the highest bit is attribute 1.
    pub mask: u16,
    /// The bytes of these attributes in ascending order, without gaps.
    pub values: ArrayVec<u8, 26>,
}

impl Model for Row {
    ghost use Rattle.mib_upload.specs.Rows.{RowFields};

    ghost Value = { RowFields };

    ghost view = { λ r.
        record { class = r.class; instance = r.instance; mask = r.mask; values = r.values.items } };
}

impl Row {
    /// A row of an instance before its first attribute.
    pub(crate) fn begin(class: u16, instance: u16) -> Self
        ensures { result ≡ begun_row class instance }
    {
        Row {
            class,
            instance,
            mask: 0,
            values: ArrayVec::new(),
        }
    }

    /// Whether so many bytes more fit.
    pub(crate) fn has_room_for(&self, width: usize) -> bool
        ensures { result ≡ nat_le (length self.now.values + width) row_room }
    {
        width <= self.values.remaining_capacity()
    }

    /// Adds attribute n, which fits and stands behind those that the row has.
    pub(crate) fn add(&mut self, n: u16, value: &[u8])
        requires number { n ≤ 16 }
        requires behind { self.old.mask + 2 ^ (16 - n) < 2 ^ 16 }
        requires room { length self.old.values + length value.now ≤ row_room }
        ensures { self.new ≡ with_attribute self.old (record { number = n; bytes = value.now }) }
    {
        self.mask += 1 << (16 - n);
        let _ = self.values.try_extend_from_slice(value);
    }

    /// The contents of an answer that gives the row: class, instance, mask and values.
    #[tactic(auto, unfolding(crate::specs::Upload::row_contents))]
    pub(crate) fn contents(&self) -> [u8; 32]
        ensures { result ≡ row_contents (Some self.now) }
    {
        let mut contents = [0; 32];
        BigEndian::write_u16(&mut contents[..2], self.class);
        BigEndian::write_u16(&mut contents[2..4], self.instance);
        BigEndian::write_u16(&mut contents[4..6], self.mask);
        contents[6..].copy_from_slice(&padded::<26>(&self.values));
        contents
    }
}
