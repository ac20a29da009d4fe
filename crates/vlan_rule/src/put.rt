//! What a put did.

/// What a table did with an entry that it took.
#[derive(Clone, Copy, Debug, PartialEq, Eq)]
pub enum Put {
    /// Its key is new, and it stands last.
    Added,
    /// It stands where the entry of its key stood.
    Replaced,
    /// It is a deletion, and the entry of its key is gone.
    Deleted,
    /// It is a deletion of a key that isn't held, so nothing changed (that this is no fault is a choice
    /// of this project).
    Absent,
}
