//! What classes and their attributes are called.

/// What the value of an attribute is, for one who reads it.
#[derive(Clone, Copy, Debug)]
pub enum AttributeKind {
    /// A number, a code or a count.
    Number,
    /// The number of an instance of another managed entity.
    Pointer,
    /// A tag protocol identifier (IEEE 802.1Q, 9.6).
    Tpid,
    /// The priority of each DSCP: 64 groups of three bits.
    DscpMapping,
    /// A table of rules, entries of 16 bytes.
    Table,
}

/// A value of an attribute that has a word of its own.
#[derive(Clone, Copy, Debug)]
pub struct NamedValue {
    pub word: &'static str,
    /// The standard's code point.
    pub value: u16,
}

/// What an attribute is called (ITU-T G.988, clause 9), and what its value is.
#[derive(Clone, Copy, Debug)]
pub struct Description {
    pub name: &'static str,
    /// One short word, in lower case with dashes; no two attributes of a class share one.
    pub word: &'static str,
    pub kind: AttributeKind,
    /// Its values that have words of their own; no two share a word or a value.
    pub values: &'static [NamedValue],
}
