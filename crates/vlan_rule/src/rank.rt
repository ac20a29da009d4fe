//! In which order the entries that match a frame are taken.
ghost use Rattle.std.specs.Prelude.{◌≡◌};

use crate::kind::Kind;

/// The rank of an entry. Of the entries that match a frame the one of least rank is used, and
/// among those the one that stands first.
#[derive(Clone, Copy, Debug, PartialEq, Eq)]
pub enum Rank {
    /// Rank 0.
    Ordinary,
    /// Rank 1: a default of its number of tags.
    Default,
    /// Rank 2: its key is one of the three predefined ones, whatever its treatment (a choice of this
    /// project).
    Predefined,
}

impl Rank {
    ghost use Rattle.vlan_rule.specs.Meaning.{rank_by, rank_number};
    ghost use Rattle.vlan_rule.specs.Spelling.{any_vid_code};

    /// Of an entry of this kind, whose key is a predefined one or isn't.
    pub(crate) fn of(is_predefined: bool, kind: Kind) -> Self
        ensures { result ≡ rank_by is_predefined kind }
    {
        if is_predefined {
            return Rank::Predefined;
        }
        match kind {
            Kind::OneTagDefault | Kind::TwoTagDefault => Rank::Default,
            Kind::NoTag | Kind::OneTag | Kind::TwoTag => Rank::Ordinary,
        }
    }

    /// Its number, 0 to 2.
    pub fn number(self) -> u8
        ensures { result ≡ rank_number self }
    {
        match self {
            Rank::Ordinary => 0,
            Rank::Default => 1,
            Rank::Predefined => 2,
        }
    }

    /// The code of a VID filter that isn't asked for, in an entry of this rank.
    pub(crate) fn any_vid(self) -> u16
        ensures { result ≡ any_vid_code self }
    {
        match self {
            Rank::Ordinary | Rank::Default => 4096,
            Rank::Predefined => 0,
        }
    }
}
