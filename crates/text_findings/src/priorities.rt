//! Which priorities the frames of a port can have at its mapper.
use explain::shadow_of;
use mib_state::Mib;
use pmapper::Mapper;
use tag_view::DscpMap;
use vlan_rule::{
    AddedTag, Filter, PriorityFilter, PrioritySource, Retag, Rule, RuleTable, TagFilter, Treatment,
};

/// Some of the eight priorities.
#[derive(Clone, Copy)]
pub(crate) struct Priorities {
    /// A bit for each, that of priority 0 the lowest.
    bits: u8,
}

impl Priorities {
    /// All of them.
    const ALL: Priorities = Priorities { bits: 0xff };

    /// None of them.
    pub(crate) const NONE: Priorities = Priorities { bits: 0 };

    /// One, the low three bits of a number.
    pub(crate) fn only(priority: u8) -> Self {
        Priorities {
            bits: 1 << (priority & 7),
        }
    }

    /// These and others.
    pub(crate) fn with(self, others: Priorities) -> Self {
        Priorities {
            bits: self.bits | others.bits,
        }
    }

    /// Whether a priority is among them.
    pub(crate) fn has(self, priority: u8) -> bool {
        self.bits >> (priority & 7) & 1 == 1
    }

    /// Whether one of them is among others.
    pub(crate) fn meet(self, others: Priorities) -> bool {
        self.bits & others.bits != 0
    }

    pub(crate) fn is_empty(self) -> bool {
        self.bits == 0
    }

    /// How many there are.
    pub(crate) fn len(self) -> u32 {
        self.bits.count_ones()
    }
}

/// Where the priorities of a frame may come from, beside its tags.
#[derive(Clone, Copy)]
struct Sources<'m> {
    /// The DSCP to P-bit mapping of the table.
    mapping: &'m DscpMap,
    mapper: &'m Mapper,
}

/// The priorities that a frame can have where it comes to a mapper, by the entries of the table in force at the mapper's port: no frame
/// has another one. Of a mapper that is in force at no port, and of a port without a table, it is all.
pub(crate) fn at_mapper(mib: &Mib, number: u16) -> Priorities {
    by_table(mib, number).unwrap_or(Priorities::ALL)
}

/// The priorities of frames at a mapper that is in force at a port with a table.
fn by_table(mib: &Mib, number: u16) -> Option<Priorities> {
    let mapper = mib.mapper(number)?;
    let port = mapper.tp_pointer;
    if mib.mapper_of_port(port) != Some(number) {
        return None;
    }
    let vlan = mib.vlan(mib.table_of_port(port)?)?;
    let mapping = &vlan.settings.dscp_map;
    Some(of_table(&vlan.table, &Sources { mapping, mapper }))
}

/// The priorities that the entries of a table leave. An entry that another one shadows leaves none.
fn of_table(table: &RuleTable, sources: &Sources<'_>) -> Priorities {
    let mut priorities = Priorities::NONE;
    for place in 0..table.len() {
        if shadow_of(table, place).is_none()
            && let Some(rule) = table.rule(place)
        {
            priorities = priorities.with(of_rule(rule, sources));
        }
    }
    priorities
}

/// The priorities that a rule leaves.
fn of_rule(rule: &Rule, sources: &Sources<'_>) -> Priorities {
    let Treatment::Retag(retag) = rule.treatment else {
        return Priorities::NONE;
    };
    match added_first(&retag) {
        Some(added) => of_added(&added, &rule.filter, sources.mapping),
        None => of_left(retag.remove, &rule.filter, sources.mapper),
    }
}

/// The tag that is added first.
fn added_first(retag: &Retag) -> Option<AddedTag> {
    match retag.outer {
        Some(outer) => Some(outer),
        None => retag.inner,
    }
}

/// The priorities of an added tag. One that is copied from a tag which isn't there is 0.
fn of_added(added: &AddedTag, filter: &Filter, mapping: &DscpMap) -> Priorities {
    match added.priority {
        PrioritySource::Fixed(priority) => Priorities::only(priority),
        PrioritySource::Inner => of_received(inner_of(filter)),
        PrioritySource::Outer => of_received(outer_of(filter)),
        PrioritySource::Dscp => Priorities::only(0).with(of_mapping(mapping)),
    }
}

/// The priorities that a mapping gives to DSCPs.
fn of_mapping(mapping: &DscpMap) -> Priorities {
    let mut priorities = Priorities::NONE;
    for dscp in 0..64 {
        priorities = priorities.with(Priorities::only(mapping.get(dscp)));
    }
    priorities
}

/// The priorities of the outermost tag that is left of those received, or of a frame without tags.
fn of_left(remove: u8, filter: &Filter, mapper: &Mapper) -> Priorities {
    let left = match remove {
        0 => outer_of(filter),
        1 if has_two_tags(filter) => inner_of(filter),
        _ => Received::NoTag,
    };
    match left {
        Received::NoTag => of_unmarked(mapper),
        Received::Any | Received::Exactly(_) => of_received(left),
    }
}

/// Whether a filter is for frames with two tags.
fn has_two_tags(filter: &Filter) -> bool {
    matches!(filter, Filter::TwoTagDefault | Filter::TwoTag { .. })
}

/// The priorities that a mapper gives frames without tags (ITU-T G.988, clause 9.3.10).
fn of_unmarked(mapper: &Mapper) -> Priorities {
    let assumed = Priorities::only(mapper.default_p_bit_assumption);
    match mapper.unmarked_frame_option {
        0 => assumed.with(of_mapping(&mapper.dscp_map)),
        _ => assumed,
    }
}

/// What a filter says of a received tag.
#[derive(Clone, Copy)]
enum Received {
    NoTag,
    /// A tag of any priority.
    Any,
    /// A tag of this priority.
    Exactly(u8),
}

/// What a filter says of the outermost tag.
fn outer_of(filter: &Filter) -> Received {
    match filter {
        Filter::NoTag => Received::NoTag,
        Filter::OneTagDefault | Filter::TwoTagDefault => Received::Any,
        Filter::OneTag(tag) => of_tag(tag),
        Filter::TwoTag { outer, .. } => of_tag(outer),
    }
}

/// What a filter says of the innermost tag.
fn inner_of(filter: &Filter) -> Received {
    match filter {
        Filter::NoTag => Received::NoTag,
        Filter::OneTagDefault | Filter::TwoTagDefault => Received::Any,
        Filter::OneTag(tag) => of_tag(tag),
        Filter::TwoTag { inner, .. } => of_tag(inner),
    }
}

/// What the filter of a tag says of it.
fn of_tag(filter: &TagFilter) -> Received {
    match filter.priority {
        PriorityFilter::Any => Received::Any,
        PriorityFilter::Exactly(priority) => Received::Exactly(priority),
    }
}

/// The priorities of a received tag, and 0 of none.
fn of_received(received: Received) -> Priorities {
    match received {
        Received::NoTag => Priorities::only(0),
        Received::Any => Priorities::ALL,
        Received::Exactly(priority) => Priorities::only(priority),
    }
}
