//! What a rule asks of a frame.
ghost use Rattle.std.specs.Prelude.{◌≡◌};

use crate::kind::Kind;
use crate::layout::TagCodes;

/// What the priority of a tag must be.
#[derive(Clone, Copy, Debug, PartialEq, Eq)]
pub enum PriorityFilter {
    Any,
    /// This one, 0 to 7.
    Exactly(u8),
}

/// What the VID of a tag must be.
#[derive(Clone, Copy, Debug, PartialEq, Eq)]
pub enum VidFilter {
    Any,
    /// This one, 0 to 4095.
    Exactly(u16),
}

/// What the TPID of a tag must be, and its drop eligible indicator.
#[derive(Clone, Copy, Debug, PartialEq, Eq)]
pub enum TpidFilter {
    Any,
    /// The TPID is 0x8100.
    Standard,
    /// The TPID is the input TPID.
    Input,
    /// The TPID is the input TPID, and the tag isn't drop eligible.
    InputNotEligible,
    /// The TPID is the input TPID, and the tag is drop eligible.
    InputEligible,
}

/// What the type behind a frame's tags must be.
#[derive(Clone, Copy, Debug, PartialEq, Eq)]
pub enum EthertypeFilter {
    Any,
    /// 0x0800.
    Ipv4,
    /// 0x8863 or 0x8864, the discovery and the session stage.
    Pppoe,
    /// 0x0806.
    Arp,
    /// 0x86DD.
    Ipv6,
    /// 0x888E, authentication by IEEE 802.1X (code 5: a choice of this project).
    Eapol,
}

/// What a tag must be.
#[derive(Clone, Copy, Debug, PartialEq, Eq)]
pub struct TagFilter {
    pub priority: PriorityFilter,
    pub vid: VidFilter,
    pub tpid: TpidFilter,
}

impl TagFilter {
    /// Every tag passes it.
    pub const ANY: TagFilter = TagFilter {
        priority: PriorityFilter::Any,
        vid: VidFilter::Any,
        tpid: TpidFilter::Any,
    };
}

/// How many tags a frame must have, and what they must be. Which filter priorities stand for which
/// of these is a choice of this project where the standard is silent.
#[derive(Clone, Copy, Debug, PartialEq, Eq)]
pub enum Filter {
    /// No tag.
    NoTag,
    /// One tag, whatever it is; used where no other rule matches.
    OneTagDefault,
    /// One tag, which is a frame's inner one.
    OneTag(TagFilter),
    /// Two tags, whatever they are; used where no other rule matches.
    TwoTagDefault,
    /// Two tags.
    TwoTag { outer: TagFilter, inner: TagFilter },
}

impl PriorityFilter {
    ghost use Rattle.vlan_rule.specs.Meaning.{priority_filter};

    fn of(code: u8) -> Self
        ensures { result ≡ priority_filter code }
    {
        match code {
            8 => PriorityFilter::Any,
            _ => PriorityFilter::Exactly(code),
        }
    }
}

impl VidFilter {
    ghost use Rattle.vlan_rule.specs.Meaning.{vid_filter};

    fn of(code: u16) -> Self
        ensures { result ≡ vid_filter code }
    {
        match code {
            4096 => VidFilter::Any,
            _ => VidFilter::Exactly(code),
        }
    }
}

impl TpidFilter {
    ghost use Rattle.vlan_rule.specs.Meaning.{tpid_filter};

    fn of(code: u8) -> Self
        ensures { result ≡ tpid_filter code }
    {
        match code {
            0 => TpidFilter::Any,
            4 => TpidFilter::Standard,
            5 => TpidFilter::Input,
            6 => TpidFilter::InputNotEligible,
            _ => TpidFilter::InputEligible,
        }
    }
}

impl EthertypeFilter {
    ghost use Rattle.vlan_rule.specs.Meaning.{ethertype_filter};

    pub(crate) fn of(code: u16) -> Self
        ensures { result ≡ ethertype_filter code }
    {
        match code {
            0 => EthertypeFilter::Any,
            1 => EthertypeFilter::Ipv4,
            2 => EthertypeFilter::Pppoe,
            3 => EthertypeFilter::Arp,
            4 => EthertypeFilter::Ipv6,
            _ => EthertypeFilter::Eapol,
        }
    }
}

impl TagFilter {
    ghost use Rattle.vlan_rule.specs.Meaning.{tag_filter};

    fn of(codes: TagCodes) -> Self
        ensures { result ≡ tag_filter codes }
    {
        TagFilter {
            priority: PriorityFilter::of(codes.priority),
            vid: VidFilter::of(codes.vid),
            tpid: TpidFilter::of(codes.tpid),
        }
    }
}

impl Filter {
    ghost use Rattle.vlan_rule.specs.Meaning.{filter_by};

    pub(crate) fn of(kind: Kind, outer: TagCodes, inner: TagCodes) -> Self
        ensures { result ≡ filter_by kind outer inner }
    {
        match kind {
            Kind::NoTag => Filter::NoTag,
            Kind::OneTagDefault => Filter::OneTagDefault,
            Kind::OneTag => Filter::OneTag(TagFilter::of(inner)),
            Kind::TwoTagDefault => Filter::TwoTagDefault,
            Kind::TwoTag => Filter::TwoTag {
                outer: TagFilter::of(outer),
                inner: TagFilter::of(inner),
            },
        }
    }
}
