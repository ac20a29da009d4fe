//! An instance that a MIB holds, lent to be read.
ghost use Rattle.std.specs.Prelude.{◌≡◌, ◌-◌, IfSome, Some, length, option_map, slice_get};
ghost use Rattle.managed_entity.specs.Class.{attributes_of, class_number, width_at};
ghost use Rattle.managed_entity.specs.Instance.{attribute_of};
ghost use Rattle.mib_state.specs.Entities.{instances_of};
ghost use Rattle.mib_state.specs.Held.{IsHeld, held_at};

use crate::mib::Mib;
use arrayvec::ArrayVec;
use managed_entity::Class;
use std::marker::Model;

/// An instance that a MIB holds, lent to be read.
#[derive(Drop)]
pub struct HeldInstance<'a> {
    mib: &'a Mib,
    class: Class,
    /// Its place among the instances of its class.
    place: usize,
    number: u16,
}

impl<'a> Model for HeldInstance<'a> {
    ghost use Rattle.mib_state.specs.Held.{Entity, IsHeld, held_at};

    ghost Value = { Entity };

    ghost view = { λ h. held_at h.mib.now.entities h.class h.place };

    ghost invariant = { λ h. IsHeld h.mib.now.entities h.class h.place h.number };
}

impl<'a> HeldInstance<'a> {
    /// The instance at a place of a class, which has this number.
    pub(crate) fn new(mib: &'a Mib, class: Class, place: usize, number: u16) -> Self
        requires { IsHeld mib.now.entities class place number }
        ensures { result ≡ held_at mib.now.entities class place }
    {
        HeldInstance {
            mib,
            class,
            place,
            number,
        }
    }

    /// The number of its class.
    pub fn class(&self) -> u16
        ensures { result ≡ self.now.class }
    {
        self.class.number()
    }

    /// Its number in the class.
    pub fn number(&self) -> u16
        ensures { result ≡ self.now.instance.number }
    {
        self.number
    }

    /// The bytes of attribute `n`, attributes numbered from 1: None for what isn't there and for a table.
    #[inline(always)]
    pub fn attribute(&self, n: u16) -> Option<ArrayVec<u8, 24>>
        ensures value { option_map (λ (bytes : _). bytes.items) result
            ≡ attribute_of (attributes_of self.now.class) n (Some self.now.instance) }
        ensures width { IfSome result (λ bytes.
            length bytes.items ≡ width_at (attributes_of self.now.class) (n - 1)) }
    {
        let place = (n as usize).checked_sub(1)?;
        self.mib.attribute_at(self.class, self.place, place)
    }
}
