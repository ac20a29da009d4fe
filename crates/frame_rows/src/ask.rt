//! What is asked of a field.
ghost use Rattle.std.specs.Prelude.{◌≡◌};
ghost use Rattle.frame_rows.specs.Ask.{is_tpid};

use tag_view::{CUSTOMER_TPID, is_tag_type};
use vlan_rule::{EthertypeFilter, PriorityFilter, TpidFilter, VidFilter};

/// What a row asks of the value of a field.
#[derive(Clone, Copy, Debug, PartialEq, Eq)]
pub enum Ask {
    /// Nothing.
    Any,
    /// It is this one.
    Exactly(u16),
    /// It is at least the first and at most the second.
    Between(u16, u16),
    /// It is a type that begins a tag, and as the filter asks. The drop eligible indicator is a field of its own.
    TagType { input: u16, filter: TpidFilter },
    /// It is a type that begins no tag, and as the filter asks.
    NoTagType { input: u16, filter: EthertypeFilter },
    /// It is a type behind two tags, where none begins a tag, and as the filter asks.
    Ethertype(EthertypeFilter),
}

impl Ask {
    ghost use Rattle.frame_rows.specs.Ask.{admits, eligible_ask, priority_ask, vid_ask};

    /// Whether a value is as it asks.
    pub(crate) fn admits(&self, value: u16) -> bool
        ensures { result ≡ admits self.now value }
    {
        match *self {
            Ask::Any => true,
            Ask::Exactly(only) => value == only,
            Ask::Between(least, most) => least <= value && value <= most,
            Ask::TagType { input, filter } => {
                is_tag_type(value, input) && is_tpid(filter, value, input)
            }
            Ask::NoTagType { input, filter } => !is_tag_type(value, input) && filter.is(value),
            Ask::Ethertype(filter) => filter.is(value),
        }
    }

    /// What a filter asks of the VID.
    pub(crate) fn vid(filter: VidFilter) -> Ask
        ensures { result ≡ vid_ask filter }
    {
        match filter {
            VidFilter::Any => Ask::Any,
            VidFilter::Exactly(vid) => Ask::Exactly(vid),
        }
    }

    /// What a filter asks of the priority.
    pub(crate) fn priority(filter: PriorityFilter) -> Ask
        ensures { result ≡ priority_ask filter }
    {
        match filter {
            PriorityFilter::Any => Ask::Any,
            PriorityFilter::Exactly(priority) => Ask::Exactly(u16::from(priority)),
        }
    }

    /// What a filter asks of the drop eligible indicator.
    pub(crate) fn eligible(filter: TpidFilter) -> Ask
        ensures { result ≡ eligible_ask filter }
    {
        match filter {
            TpidFilter::InputNotEligible => Ask::Exactly(0),
            TpidFilter::InputEligible => Ask::Exactly(1),
            _ => Ask::Any,
        }
    }
}

/// Whether a TPID is as a filter asks, whatever the drop eligible indicator.
fn is_tpid(filter: TpidFilter, tpid: u16, input: u16) -> bool
    ensures { result ≡ is_tpid filter input tpid }
{
    match filter {
        TpidFilter::Any => true,
        TpidFilter::Standard => tpid == CUSTOMER_TPID,
        TpidFilter::Input | TpidFilter::InputNotEligible | TpidFilter::InputEligible => {
            tpid == input
        }
    }
}
