//! What is made for the time of a way alone.
use managed_entity::Class;

/// What is made for the time of a way alone.
#[derive(Clone, Copy)]
pub enum Temporary {
    /// An instance of a class.
    Instance(u16, u16),
    /// The entry of a key in a table.
    Entry(u16, u64),
}

impl Temporary {
    /// An instance of a class.
    pub fn instance(class: Class, number: u16) -> Temporary {
        Temporary::Instance(class.number(), number)
    }

    /// Whether it is this instance.
    pub fn is_instance(self, class: Class, number: u16) -> bool {
        match self {
            Temporary::Instance(of, held) => of == class.number() && held == number,
            Temporary::Entry(_, _) => false,
        }
    }

    /// Whether it is the entry of this key in this table.
    pub fn is_entry(self, table: u16, key: u64) -> bool {
        match self {
            Temporary::Entry(of, held) => of == table && held == key,
            Temporary::Instance(_, _) => false,
        }
    }
}
