//! The rows of the last MIB upload.
ghost use Rattle.std.specs.Prelude.{◌≡◌, ◌≤◌, ◌<◌, ◌+◌, ◌-◌, ◌^◌, ℕ, List, [], ◌∷◌, ◌++◌, All, IfOk, length, option_map, slice_get};
ghost use Rattle.mib_state.specs.Entities.{instances_of};
ghost use Rattle.mib_upload.specs.Rows.{Numbered, filled_from, instance_rows, class_rows, row_room, AreRows, AllFit, rows_of};
ghost use Rattle.mib_upload.specs.Room.{rows_by, instance_room, class_room, shelf_room};

use crate::row::Row;
use managed_entity::Class;
use mib_state::{HeldInstance, Mib};
use std::alloc::{AllocError, Global};
use std::marker::Model;
use std::mem::replace;

/// The most rows that there may be: one of ONU data, two each of 32 mappers and of 16 tables, and one each of 256 points
/// and of 256 GEM ports.
const ROOM: usize = 1 + 32 * 2 + 16 * 2 + 256 + 256;

/// The rows of the last MIB upload (ITU-T G.988, annex A), with room for all that there may be.
#[derive(Drop)]
pub struct Shelf {
    rows: Vec<Row>,
}

impl Model for Shelf {
    ghost use Rattle.std.specs.Prelude.{List, vec_capacity, ◌≤◌};
    ghost use Rattle.mib_upload.specs.Rows.{RowFields};
    ghost use Rattle.mib_upload.specs.Room.{shelf_room};

    ghost Value = { List RowFields };

    ghost view = { λ s. s.rows.items };

    ghost invariant = { λ s. shelf_room ≤ vec_capacity s.rows };
}

impl Shelf {
    /// No row, with room for 609.
    pub fn new(alloc: Global) -> Result<Self, AllocError>
        ensures { IfOk result (λ shelf. shelf ≡ []) }
    {
        Ok(Shelf {
            rows: Vec::with_capacity(alloc, ROOM)?,
        })
    }

    /// Puts the rows of this moment in the place of what it holds, and gives their number.
    pub fn fill(&mut self, mib: &Mib) -> u16
        ensures are { AreRows mib.now.entities self.new }
        ensures rows { self.new ≡ rows_of mib.now.entities }
        ensures count { result ≡ length self.new }
    {
        self.rows.clear();
        for class in Class::ALL {
            self.add_class(mib, class.number());
        }
        self.rows.len() as u16
    }

    /// The row of a number, from 0.
    pub fn row(&self, n: u16) -> Option<&Row>
        ensures { option_map (λ (row : _). row.now) result ≡ slice_get self.now n }
    {
        self.rows.get(n as usize)
    }

    /// Adds a row, for which there is room.
    fn push(&mut self, row: Row)
        requires { length self.old < shelf_room }
        ensures { self.new ≡ self.old ++ row ∷ [] }
    {
        let _ = self.rows.push(row);
    }

    /// Adds the rows of the instances of a class.
    fn add_class(&mut self, mib: &Mib, class: u16)
        requires { length self.old + class_room class ≤ shelf_room }
        ensures rows { self.new
            ≡ self.old ++ class_rows class (instances_of mib.now.entities class) }
        ensures room { length self.new ≤ length self.old + class_room class }
        ensures each { All (AllFit class) (instances_of mib.now.entities class) }
    {
        let mut place = 0;
        while let Some(held) = mib.instance_at(class, place) {
            self.add_instance(&held);
            place += 1;
        }
    }

    /// Adds the rows of an instance.
    fn add_instance(&mut self, held: &HeldInstance<'_>)
        requires { length self.old + instance_room held.now.class ≤ shelf_room }
        ensures rows { self.new ≡ self.old ++ instance_rows held.now.class held.now.instance }
        ensures room { length self.new ≤ length self.old + instance_room held.now.class }
        ensures each { AllFit held.now.class held.now.instance }
    {
        let mut row = Row::begin(held.class(), held.number());
        for n in 1..=16 {
            // Lent and not moved: a value that has just been written is slow to copy.
            let value = held.attribute(n);
            if let Some(value) = &value {
                self.add_attribute(&mut row, n, value);
            }
        }
        if row.mask != 0 {
            self.push(row);
        }
    }

    /// Adds an attribute to a begun row. Where it doesn't fit, the row is added and a new one is begun.
    fn add_attribute(&mut self, row: &mut Row, n: u16, value: &[u8])
        requires first { 1 ≤ n }
        requires last { n ≤ 16 }
        requires behind { row.old.mask + 2 ^ (17 - n) ≤ 2 ^ 16 }
        requires fits { length value.now ≤ row_room }
        requires room { length self.old < shelf_room }
        ensures rows { (rest : List Numbered) → self.new ++ filled_from row.new rest
            ≡ self.old ++ filled_from row.old (record { number = n; bytes = value.now } ∷ rest) }
        ensures room { (widths : List ℕ) → length self.new + rows_by (length row.new.values) widths
            ≡ length self.old + rows_by (length row.old.values) (length value.now ∷ widths) }
        ensures mask { row.new.mask + 2 ^ (16 - n) ≤ 2 ^ 16 }
    {
        if !row.has_room_for(value.len()) {
            let next = Row::begin(row.class, row.instance);
            self.push(replace(row, next));
        }
        row.add(n, value);
    }
}
