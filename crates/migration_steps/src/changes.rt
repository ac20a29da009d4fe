//! The attributes in which an instance differs from what it is to be.
use arrayvec::ArrayVec;
use managed_entity::{Access, Class, layout_of};
use mib_state::Mib;
use migration_draft::{SET_ROOM, put, set};
use omci_msg::Request;
use std::alloc::AllocError;
use vlan_rule::Entry;

/// Some attributes, as a Set writes them.
#[derive(Drop)]
pub(crate) struct Writing {
    pub mask: u16,
    /// How many bytes they have together.
    pub width: usize,
    values: ArrayVec<u8, 48>,
}

/// Which attributes of those that differ are written.
#[derive(Clone, Copy, PartialEq, Eq)]
pub(crate) enum Part {
    All,
    /// The DSCP to P-bit mapping alone.
    Mapping,
    /// All but it.
    Others,
    /// One alone.
    One(u16),
}

/// How many bytes a DSCP to P-bit mapping has.
const MAPPING: usize = 24;

impl Part {
    fn has(self, n: u16, width: usize) -> bool {
        match self {
            Part::All => true,
            Part::Mapping => width == MAPPING,
            Part::Others => width != MAPPING,
            Part::One(only) => n == only,
        }
    }
}

/// Whether a Set may write an attribute that is no table.
fn is_writable(access: Access) -> bool {
    matches!(access, Access::SetByCreate | Access::Writable)
}

/// The bit of an attribute in a mask.
fn bit(n: u16) -> u16 {
    0x8000u16
        .checked_shr(u32::from(n.saturating_sub(1)))
        .unwrap_or(0)
}

impl Writing {
    /// Nothing.
    fn nothing() -> Writing {
        Writing {
            mask: 0,
            width: 0,
            values: ArrayVec::new(),
        }
    }

    /// The attributes of an instance that differ between what is here and the goal, of some; and an entry of its table, if one is given.
    pub(crate) fn with(
        here: &Mib,
        goal: &Mib,
        class: Class,
        instance: u16,
        part: Part,
        entry: Option<&Entry>,
    ) -> Writing {
        let number = class.number();
        let mut writing = Writing::nothing();
        let mut n = 0u16;
        for attribute in layout_of(number) {
            n = n.saturating_add(1);
            if let Some(entry) = entry
                && attribute.access.is_table()
            {
                writing.add(n, &entry.0);
            }
            let wanted = goal.attribute(number, instance, n);
            let held = here.attribute(number, instance, n);
            if is_writable(attribute.access) {
                writing.add_differing(n, part, wanted.as_ref(), held.as_ref());
            }
        }
        writing
    }

    /// Adds an attribute of the goal, if it differs from what is held and is to be written.
    fn add_differing(
        &mut self,
        n: u16,
        part: Part,
        wanted: Option<&ArrayVec<u8, 24>>,
        held: Option<&ArrayVec<u8, 24>>,
    ) {
        if let (Some(wanted), Some(held)) = (wanted, held)
            && wanted.as_slice() != held.as_slice()
            && part.has(n, wanted.len())
        {
            self.add(n, wanted.as_slice());
        }
    }

    /// The attributes alone.
    pub(crate) fn of(here: &Mib, goal: &Mib, class: Class, instance: u16, part: Part) -> Writing {
        Writing::with(here, goal, class, instance, part, None)
    }

    /// Adds an attribute behind those of lesser numbers.
    fn add(&mut self, n: u16, bytes: &[u8]) {
        self.mask |= bit(n);
        self.width = self.width.saturating_add(bytes.len());
        put(&mut self.values, bytes);
    }

    pub(crate) fn is_empty(&self) -> bool {
        self.mask == 0
    }

    /// The Set, if one has the room.
    pub(crate) fn request(&self, class: Class, instance: u16) -> Option<Request> {
        if self.is_empty() || self.width > SET_ROOM {
            return None;
        }
        Some(set(class, instance, self.mask, &self.values))
    }
}

/// The Sets that write attributes of an instance, in the order in which they are tried: all at once, the mapping alone, all others.
pub(crate) fn push_sets(
    here: &Mib,
    goal: &Mib,
    class: Class,
    instance: u16,
    list: &mut Vec<Request>,
) -> Result<(), AllocError> {
    for part in [Part::All, Part::Mapping, Part::Others] {
        if let Some(request) = Writing::of(here, goal, class, instance, part).request(
            class, instance,
        ) {
            list.push(request)?;
        }
    }
    Ok(())
}

/// The Sets that write one attribute of an instance each.
pub(crate) fn push_single_sets(
    here: &Mib,
    goal: &Mib,
    class: Class,
    instance: u16,
    list: &mut Vec<Request>,
) -> Result<(), AllocError> {
    for n in 1..=16u16 {
        let writing = Writing::of(here, goal, class, instance, Part::One(n));
        if let Some(request) = writing.request(class, instance) {
            list.push(request)?;
        }
    }
    Ok(())
}
