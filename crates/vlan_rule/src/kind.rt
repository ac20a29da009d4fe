//! The kinds of entries, by the frames that they are for.
ghost use Rattle.std.specs.Prelude.{◌≡◌};

/// What frames an entry is for (G.988, 9.3.13).
#[derive(Clone, Copy)]
pub enum Kind {
    /// Frames without a tag.
    NoTag,
    /// Every frame with one tag, where no other entry matches it.
    OneTagDefault,
    /// Frames with one tag.
    OneTag,
    /// Every frame with two tags, where no other entry matches it.
    TwoTagDefault,
    /// Frames with two tags.
    TwoTag,
}

impl Kind {
    ghost use Rattle.vlan_rule.specs.Entry.{kind_by};

    /// Of an outer and an inner filter priority.
    pub(crate) fn of(outer: u16, inner: u16) -> Self
        ensures { result ≡ kind_by outer inner }
    {
        match (outer, inner) {
            (_, 15) => Kind::NoTag,
            (15, 14) => Kind::OneTagDefault,
            (15, _) => Kind::OneTag,
            (14, _) => Kind::TwoTagDefault,
            _ => Kind::TwoTag,
        }
    }
}
