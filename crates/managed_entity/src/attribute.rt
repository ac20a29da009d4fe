//! One attribute of a class, as data.

/// Who may write an attribute (ITU-T G.988, clause 9: R, W, set-by-create).
#[derive(Clone, Copy)]
pub enum Access {
    /// Given at Create, and writable.
    SetByCreate,
    Writable,
    ReadOnly,
    /// A table of entries, of which a Set writes one.
    Table,
}

impl Access {
    ghost use Rattle.std.specs.Prelude.{◌≡◌};
    ghost use Rattle.managed_entity.specs.Class.{is_read_only, is_table};

    /// Whether the attribute is a table, of which a Set writes one entry.
    pub fn is_table(self) -> bool
        ensures { result ≡ is_table self }
    {
        match self {
            Access::Table => true,
            Access::SetByCreate | Access::Writable | Access::ReadOnly => false,
        }
    }

    pub(crate) fn is_read_only(self) -> bool
        ensures { result ≡ is_read_only self }
    {
        match self {
            Access::ReadOnly => true,
            Access::SetByCreate | Access::Writable | Access::Table => false,
        }
    }
}

/// One attribute of a class.
#[derive(Clone, Copy)]
pub struct Attribute {
    /// Its number of bytes; of a table, that of one entry.
    pub width: u8,
    pub access: Access,
    /// Its value after a Create that isn't given it.
    pub initial: u16,
}

impl Attribute {
    /// One byte, given at Create.
    pub(crate) const GIVEN_1: Attribute = Attribute {
        width: 1,
        access: Access::SetByCreate,
        initial: 0,
    };

    /// Two bytes, given at Create.
    pub(crate) const GIVEN_2: Attribute = Attribute {
        width: 2,
        access: Access::SetByCreate,
        initial: 0,
    };

    /// One byte, writable, 0 after Create.
    pub const WRITABLE_1: Attribute = Attribute {
        width: 1,
        access: Access::Writable,
        initial: 0,
    };

    /// 24 bytes, writable, 0 after Create.
    pub(crate) const WRITABLE_24: Attribute = Attribute {
        width: 24,
        access: Access::Writable,
        initial: 0,
    };

    /// One byte, read only, 0.
    pub(crate) const READ_ONLY_1: Attribute = Attribute {
        width: 1,
        access: Access::ReadOnly,
        initial: 0,
    };
}
