//! What a table does with an entry, decided before it is done.
use crate::put::Put;
use crate::rule::Rule;

/// How the rows change for an entry that is put.
#[derive(Clone, Copy)]
pub(crate) enum Edit {
    /// It goes last.
    Add(Rule),
    /// It stands at this place, in which its key is held.
    Replace(usize, Rule),
    /// The row at this place goes.
    Delete(usize),
    /// Nothing changes.
    Absent,
}

impl Edit {
    ghost use Rattle.std.specs.Prelude.{◌≡◌};
    ghost use Rattle.vlan_rule.specs.Edit.{told_of};

    /// What its caller is told.
    pub(crate) fn told(self) -> Put
        ensures { result ≡ told_of self }
    {
        match self {
            Edit::Add(_) => Put::Added,
            Edit::Replace(_, _) => Put::Replaced,
            Edit::Delete(_) => Put::Deleted,
            Edit::Absent => Put::Absent,
        }
    }
}
