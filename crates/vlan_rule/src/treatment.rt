//! What a rule makes of a frame's tags.
ghost use Rattle.std.specs.Prelude.{◌≡◌};

use crate::entry::Entry;
use crate::layout::{TAGS_TO_REMOVE, TREATMENT_INNER, TREATMENT_OUTER, TagCodes};

/// Where the priority of an added tag comes from.
#[derive(Clone, Copy, Debug, PartialEq, Eq)]
pub enum PrioritySource {
    /// This one, 0 to 7.
    Fixed(u8),
    /// The received inner tag.
    Inner,
    /// The received outer tag.
    Outer,
    /// The frame's DSCP, by the table's DSCP to P-bit mapping.
    Dscp,
}

/// Where the VID of an added tag comes from.
#[derive(Clone, Copy, Debug, PartialEq, Eq)]
pub enum VidSource {
    /// This one, 0 to 4094.
    Fixed(u16),
    /// The received inner tag.
    Inner,
    /// The received outer tag.
    Outer,
}

/// Where the TPID of an added tag comes from.
#[derive(Clone, Copy, Debug, PartialEq, Eq)]
pub enum TpidSource {
    /// The received inner tag.
    Inner,
    /// The received outer tag.
    Outer,
    /// The table's output TPID.
    Output,
    /// It is 0x8100.
    Standard,
}

/// Where the drop eligible indicator of an added tag comes from.
#[derive(Clone, Copy, Debug, PartialEq, Eq)]
pub enum EligibleSource {
    /// The received inner tag.
    Inner,
    /// The received outer tag.
    Outer,
    /// It is 0.
    Clear,
    /// It is 1.
    Set,
}

/// A tag that a rule adds, by where its parts come from.
#[derive(Clone, Copy, Debug, PartialEq, Eq)]
pub struct AddedTag {
    pub priority: PrioritySource,
    pub vid: VidSource,
    pub tpid: TpidSource,
    pub eligible: EligibleSource,
}

/// How a frame's tags change.
#[derive(Clone, Copy, Debug, PartialEq, Eq)]
pub struct Retag {
    /// How many of the received tags go, the outermost first: 0 to 2.
    pub remove: u8,
    /// The tag that the frame then begins with.
    pub outer: Option<AddedTag>,
    /// The tag behind that one, before what is left of the received tags.
    pub inner: Option<AddedTag>,
}

/// What becomes of a frame.
#[derive(Clone, Copy, Debug, PartialEq, Eq)]
pub enum Treatment {
    /// It is dropped.
    Discard,
    /// It leaves with other tags.
    Retag(Retag),
}

impl PrioritySource {
    ghost use Rattle.vlan_rule.specs.Meaning.{priority_source};

    fn of(code: u8) -> Self
        ensures { result ≡ priority_source code }
    {
        match code {
            8 => PrioritySource::Inner,
            9 => PrioritySource::Outer,
            10 => PrioritySource::Dscp,
            _ => PrioritySource::Fixed(code),
        }
    }
}

impl VidSource {
    ghost use Rattle.vlan_rule.specs.Meaning.{vid_source};

    fn of(code: u16) -> Self
        ensures { result ≡ vid_source code }
    {
        match code {
            4096 => VidSource::Inner,
            4097 => VidSource::Outer,
            _ => VidSource::Fixed(code),
        }
    }
}

impl TpidSource {
    ghost use Rattle.vlan_rule.specs.Meaning.{tpid_source};

    fn of(code: u8) -> Self
        ensures { result ≡ tpid_source code }
    {
        match code {
            0 => TpidSource::Inner,
            1 => TpidSource::Outer,
            4 => TpidSource::Standard,
            _ => TpidSource::Output,
        }
    }
}

impl EligibleSource {
    ghost use Rattle.vlan_rule.specs.Meaning.{eligible_source};

    fn of(code: u8) -> Self
        ensures { result ≡ eligible_source code }
    {
        match code {
            0 | 2 => EligibleSource::Inner,
            1 | 3 => EligibleSource::Outer,
            7 => EligibleSource::Set,
            _ => EligibleSource::Clear,
        }
    }
}

impl AddedTag {
    ghost use Rattle.vlan_rule.specs.Meaning.{addition};

    /// A priority of 15 adds no tag.
    fn of(codes: TagCodes) -> Option<Self>
        ensures { result ≡ addition codes }
    {
        if codes.priority == 15 {
            return None;
        }
        Some(AddedTag {
            priority: PrioritySource::of(codes.priority),
            vid: VidSource::of(codes.vid),
            tpid: TpidSource::of(codes.tpid),
            eligible: EligibleSource::of(codes.tpid),
        })
    }
}

impl Treatment {
    ghost use Rattle.vlan_rule.specs.Meaning.{treatment_of};

    #[tactic(auto, unfolding(crate::specs::Meaning::treatment_of))]
    pub(crate) fn of(entry: &Entry) -> Self
        ensures { result ≡ treatment_of entry.now.0 }
    {
        let remove = entry.value(TAGS_TO_REMOVE);
        if remove == 3 {
            return Treatment::Discard;
        }
        Treatment::Retag(Retag {
            remove: remove as u8,
            outer: AddedTag::of(entry.codes(TREATMENT_OUTER)),
            inner: AddedTag::of(entry.codes(TREATMENT_INNER)),
        })
    }
}
