//! Which managed entity is meant, in words.
use crate::class_names::standard_class_name;
use std::fmt;

/// An instance in words, by its class and its number: `GEM port network CTP (268) 0x0401`, or
/// `unknown class (46) 0x0001` where the class is no common one.
#[derive(Clone, Copy)]
pub struct EntityWords {
    pub class: u16,
    pub instance: u16,
}

impl fmt::Display for EntityWords {
    fn fmt<W: fmt::Write>(&self, f: &mut fmt::Formatter<W>) -> fmt::Result {
        let name = standard_class_name(self.class).unwrap_or("unknown class");
        write!(f, "{name} ({}) 0x{:04x}", self.class, self.instance)
    }
}
