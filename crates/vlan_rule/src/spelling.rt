//! The codes by which an entry says a rule.
ghost use Rattle.std.specs.Prelude.{◌≡◌, ◌<◌};
ghost use Rattle.vlan_rule.specs.Spelling.{added_tag_is_codable, addition_codes, ethertype_code, filter_is_codable, filter_rank, inner_addition_codes, inner_filter_codes, outer_addition_codes, outer_filter_codes, priority_filter_code, priority_filter_is_codable, priority_source_code, priority_source_is_codable, removal_code, tag_filter_codes, tag_filter_is_codable, tag_number, tpid_filter_code, tpid_source_code, tpid_source_is_codable, treatment_is_codable, unsaid_codes, vid_filter_code, vid_filter_is_codable, vid_source_code, vid_source_is_codable, IsTagCodes};

use crate::filter::{EthertypeFilter, Filter, PriorityFilter, TagFilter, TpidFilter, VidFilter};
use crate::layout::TagCodes;
use crate::rank::Rank;
use crate::treatment::{
    AddedTag, EligibleSource, PrioritySource, TpidSource, Treatment, VidSource,
};

impl PriorityFilter {
    fn is_codable(self) -> bool
        ensures { result ≡ priority_filter_is_codable self }
    {
        match self {
            PriorityFilter::Any => true,
            PriorityFilter::Exactly(priority) => priority < 8,
        }
    }

    fn code(self) -> u8
        ensures { result ≡ priority_filter_code self }
    {
        match self {
            PriorityFilter::Any => 8,
            PriorityFilter::Exactly(priority) => priority,
        }
    }
}

impl VidFilter {
    fn is_codable(self) -> bool
        ensures { result ≡ vid_filter_is_codable self }
    {
        match self {
            VidFilter::Any => true,
            VidFilter::Exactly(vid) => vid < 4096,
        }
    }

    fn code(self) -> u16
        ensures { result ≡ vid_filter_code self }
    {
        match self {
            VidFilter::Any => 4096,
            VidFilter::Exactly(vid) => vid,
        }
    }
}

impl TpidFilter {
    fn code(self) -> u8
        ensures { result ≡ tpid_filter_code self }
    {
        match self {
            TpidFilter::Any => 0,
            TpidFilter::Standard => 4,
            TpidFilter::Input => 5,
            TpidFilter::InputNotEligible => 6,
            TpidFilter::InputEligible => 7,
        }
    }
}

impl EthertypeFilter {
    pub(crate) fn code(self) -> u8
        ensures { result ≡ ethertype_code self }
    {
        match self {
            EthertypeFilter::Any => 0,
            EthertypeFilter::Ipv4 => 1,
            EthertypeFilter::Pppoe => 2,
            EthertypeFilter::Arp => 3,
            EthertypeFilter::Ipv6 => 4,
            EthertypeFilter::Eapol => 5,
        }
    }
}

impl TagFilter {
    fn is_codable(self) -> bool
        ensures { result ≡ tag_filter_is_codable self }
    {
        self.priority.is_codable() && self.vid.is_codable()
    }

    fn codes(self) -> TagCodes
        ensures { result ≡ tag_filter_codes self }
    {
        TagCodes {
            priority: self.priority.code(),
            vid: self.vid.code(),
            tpid: self.tpid.code(),
        }
    }
}

impl Filter {
    pub(crate) fn is_codable(self) -> bool
        ensures { result ≡ filter_is_codable self }
    {
        match self {
            Filter::NoTag | Filter::OneTagDefault | Filter::TwoTagDefault => true,
            Filter::OneTag(inner) => inner.is_codable(),
            Filter::TwoTag { outer, inner } => outer.is_codable() && inner.is_codable(),
        }
    }

    /// The rank of an entry with this filter, whose key isn't a predefined one.
    pub(crate) fn rank(self) -> Rank
        ensures { result ≡ filter_rank self }
    {
        match self {
            Filter::OneTagDefault | Filter::TwoTagDefault => Rank::Default,
            Filter::NoTag | Filter::OneTag(_) | Filter::TwoTag { .. } => Rank::Ordinary,
        }
    }

    /// The codes of the outer tag's filters, where a VID that isn't asked for has this code.
    pub(crate) fn outer_codes(self, any_vid: u16) -> TagCodes
        ensures { result ≡ outer_filter_codes self any_vid }
    {
        match self {
            Filter::NoTag | Filter::OneTagDefault | Filter::OneTag(_) => unsaid(15, any_vid),
            Filter::TwoTagDefault => unsaid(14, any_vid),
            Filter::TwoTag { outer, .. } => outer.codes(),
        }
    }

    /// The codes of the inner tag's filters, where a VID that isn't asked for has this code.
    pub(crate) fn inner_codes(self, any_vid: u16) -> TagCodes
        ensures { result ≡ inner_filter_codes self any_vid }
    {
        match self {
            Filter::NoTag => unsaid(15, any_vid),
            Filter::OneTagDefault | Filter::TwoTagDefault => unsaid(14, any_vid),
            Filter::OneTag(inner) | Filter::TwoTag { inner, .. } => inner.codes(),
        }
    }
}

impl PrioritySource {
    fn is_codable(self) -> bool
        ensures { result ≡ priority_source_is_codable self }
    {
        match self {
            PrioritySource::Fixed(priority) => priority < 8,
            PrioritySource::Inner | PrioritySource::Outer | PrioritySource::Dscp => true,
        }
    }

    fn code(self) -> u8
        ensures { result ≡ priority_source_code self }
    {
        match self {
            PrioritySource::Fixed(priority) => priority,
            PrioritySource::Inner => 8,
            PrioritySource::Outer => 9,
            PrioritySource::Dscp => 10,
        }
    }
}

impl VidSource {
    fn is_codable(self) -> bool
        ensures { result ≡ vid_source_is_codable self }
    {
        match self {
            VidSource::Fixed(vid) => vid < 4095,
            VidSource::Inner | VidSource::Outer => true,
        }
    }

    fn code(self) -> u16
        ensures { result ≡ vid_source_code self }
    {
        match self {
            VidSource::Fixed(vid) => vid,
            VidSource::Inner => 4096,
            VidSource::Outer => 4097,
        }
    }
}

impl TpidSource {
    /// Whether one code stands for a TPID of this source and a drop eligible indicator of that one.
    fn is_codable(self, eligible: EligibleSource) -> bool
        ensures { result ≡ tpid_source_is_codable self eligible }
    {
        match (self, eligible) {
            (TpidSource::Output, _) => true,
            (TpidSource::Inner, EligibleSource::Inner) => true,
            (TpidSource::Outer, EligibleSource::Outer) => true,
            (TpidSource::Standard, EligibleSource::Clear) => true,
            _ => false,
        }
    }

    fn code(self, eligible: EligibleSource) -> u8
        ensures { result ≡ tpid_source_code self eligible }
    {
        match (self, eligible) {
            (TpidSource::Inner, _) => 0,
            (TpidSource::Outer, _) => 1,
            (TpidSource::Output, EligibleSource::Inner) => 2,
            (TpidSource::Output, EligibleSource::Outer) => 3,
            (TpidSource::Standard, _) => 4,
            (TpidSource::Output, EligibleSource::Clear) => 6,
            (TpidSource::Output, EligibleSource::Set) => 7,
        }
    }
}

impl AddedTag {
    fn is_codable(self) -> bool
        ensures { result ≡ added_tag_is_codable self }
    {
        self.priority.is_codable() && self.vid.is_codable() && self.tpid.is_codable(self.eligible)
    }
}

impl Treatment {
    pub(crate) fn is_codable(self) -> bool
        ensures { result ≡ treatment_is_codable self }
    {
        match self {
            Treatment::Discard => true,
            Treatment::Retag(retag) => {
                retag.remove <= 2
                    && retag.outer.is_none_or(|tag| tag.is_codable())
                    && retag.inner.is_none_or(|tag| tag.is_codable())
            }
        }
    }

    /// The code of how many tags go.
    pub(crate) fn removal(self) -> u8
        ensures { result ≡ removal_code self }
    {
        match self {
            Treatment::Discard => 3,
            Treatment::Retag(retag) => retag.remove,
        }
    }

    pub(crate) fn outer_codes(self) -> TagCodes
        ensures { result ≡ outer_addition_codes self }
    {
        match self {
            Treatment::Discard => addition_codes(None),
            Treatment::Retag(retag) => addition_codes(retag.outer),
        }
    }

    pub(crate) fn inner_codes(self) -> TagCodes
        ensures { result ≡ inner_addition_codes self }
    {
        match self {
            Treatment::Discard => addition_codes(None),
            Treatment::Retag(retag) => addition_codes(retag.inner),
        }
    }
}

/// The codes of a tag that is added; a priority of 15 adds none.
fn addition_codes(tag: Option<AddedTag>) -> TagCodes
    ensures { result ≡ addition_codes tag }
{
    match tag {
        None => unsaid(15, 0),
        Some(tag) => TagCodes {
            priority: tag.priority.code(),
            vid: tag.vid.code(),
            tpid: tag.tpid.code(tag.eligible),
        },
    }
}

/// The codes where the priority alone says something.
fn unsaid(priority: u8, vid: u16) -> TagCodes
    ensures { result ≡ unsaid_codes priority vid }
{
    TagCodes {
        priority,
        vid,
        tpid: 0,
    }
}

impl TagCodes {
    /// The three fields as one number of 20 bits, as they stand side by side.
    pub(crate) fn number(self) -> u64
        requires { IsTagCodes self }
        ensures value { result ≡ tag_number self }
        ensures bound { result < 0x100000 }
    {
        (u64::from(self.priority) * 8192 + u64::from(self.vid)) * 8 + u64::from(self.tpid)
    }
}
