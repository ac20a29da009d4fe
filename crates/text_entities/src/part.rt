//! The parts of a filter and of an added tag, as numbers and names.
use std::fmt::{self, Display};
use tag_view::CUSTOMER_TPID;
use vlan_rule::{
    AddedTag, EligibleSource, EthertypeFilter, PriorityFilter, PrioritySource, TagFilter,
    TpidFilter, TpidSource, VidFilter, VidSource,
};

/// A part of a filter, or of a tag that is added.
#[derive(Clone, Copy)]
pub enum Part {
    /// Whatever it is.
    Any,
    /// This number.
    Number(u16),
    /// This tag protocol identifier.
    Tpid(u16),
    /// That of the received inner tag.
    Inner,
    /// That of the received outer tag.
    Outer,
    /// The priority of the frame's DSCP, by the table's DSCP to P-bit mapping.
    Dscp,
    /// The table's input TPID.
    Input,
    /// The table's output TPID.
    Output,
}

impl fmt::Display for Part {
    /// As a cell of a table: `*`, a number, or one short word.
    fn fmt<W: fmt::Write>(&self, f: &mut fmt::Formatter<W>) -> fmt::Result {
        match self {
            Part::Any => f.write_str("*"),
            Part::Number(number) => number.fmt(f),
            Part::Tpid(number) => write!(f, "{:04x}", *number),
            Part::Inner => f.write_str("inner"),
            Part::Outer => f.write_str("outer"),
            Part::Dscp => f.write_str("dscp"),
            Part::Input => f.write_str("input"),
            Part::Output => f.write_str("output"),
        }
    }
}

/// The parts of the filter of a tag, or of a tag that is added.
#[derive(Clone, Copy)]
pub struct TagParts {
    pub priority: Part,
    pub vid: Part,
    pub tpid: Part,
    /// The drop eligible indicator.
    pub dei: Part,
}

/// What every tag is.
pub const ANY_PARTS: TagParts = TagParts {
    priority: Part::Any,
    vid: Part::Any,
    tpid: Part::Any,
    dei: Part::Any,
};

/// What a filter asks of a tag.
pub fn filter_parts(filter: &TagFilter) -> TagParts {
    let priority = match filter.priority {
        PriorityFilter::Any => Part::Any,
        PriorityFilter::Exactly(priority) => Part::Number(u16::from(priority)),
    };
    let vid = match filter.vid {
        VidFilter::Any => Part::Any,
        VidFilter::Exactly(vid) => Part::Number(vid),
    };
    let (tpid, dei) = match filter.tpid {
        TpidFilter::Any => (Part::Any, Part::Any),
        TpidFilter::Standard => (Part::Tpid(CUSTOMER_TPID), Part::Any),
        TpidFilter::Input => (Part::Input, Part::Any),
        TpidFilter::InputNotEligible => (Part::Input, Part::Number(0)),
        TpidFilter::InputEligible => (Part::Input, Part::Number(1)),
    };
    TagParts {
        priority,
        vid,
        tpid,
        dei,
    }
}

/// Where the parts of an added tag come from.
pub fn added_parts(tag: &AddedTag) -> TagParts {
    let priority = match tag.priority {
        PrioritySource::Fixed(priority) => Part::Number(u16::from(priority)),
        PrioritySource::Inner => Part::Inner,
        PrioritySource::Outer => Part::Outer,
        PrioritySource::Dscp => Part::Dscp,
    };
    let vid = match tag.vid {
        VidSource::Fixed(vid) => Part::Number(vid),
        VidSource::Inner => Part::Inner,
        VidSource::Outer => Part::Outer,
    };
    let tpid = match tag.tpid {
        TpidSource::Inner => Part::Inner,
        TpidSource::Outer => Part::Outer,
        TpidSource::Output => Part::Output,
        TpidSource::Standard => Part::Tpid(CUSTOMER_TPID),
    };
    let dei = match tag.eligible {
        EligibleSource::Inner => Part::Inner,
        EligibleSource::Outer => Part::Outer,
        EligibleSource::Clear => Part::Number(0),
        EligibleSource::Set => Part::Number(1),
    };
    TagParts {
        priority,
        vid,
        tpid,
        dei,
    }
}

/// A TPID and the drop eligible indicator beside it as one cell of a table: `*`, `8100`, `input`, `input/0`, `inner`, `output/1`, or
/// `output/in`, the indicator of the inner tag. The indicator stands where a TPID doesn't settle it: beside the input and the output TPID.
#[derive(Clone, Copy)]
pub struct TpidCell<'a>(pub &'a TagParts);

impl fmt::Display for TpidCell<'_> {
    fn fmt<W: fmt::Write>(&self, f: &mut fmt::Formatter<W>) -> fmt::Result {
        self.0.tpid.fmt(f)?;
        if !matches!(self.0.tpid, Part::Input | Part::Output) {
            return Ok(());
        }
        match self.0.dei {
            Part::Any => Ok(()),
            Part::Inner => f.write_str("/in"),
            Part::Outer => f.write_str("/out"),
            dei => write!(f, "/{dei}"),
        }
    }
}

/// What the type behind the tags must be, in a word, or None for any.
pub fn type_word(filter: EthertypeFilter) -> Option<&'static str> {
    match filter {
        EthertypeFilter::Any => None,
        EthertypeFilter::Ipv4 => Some("ipv4"),
        EthertypeFilter::Pppoe => Some("pppoe"),
        EthertypeFilter::Arp => Some("arp"),
        EthertypeFilter::Ipv6 => Some("ipv6"),
        EthertypeFilter::Eapol => Some("eapol"),
    }
}
