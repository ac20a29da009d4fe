//! What the index keeps of an entry.
ghost use Rattle.std.specs.Prelude.{◌≡◌};

use vlan_rule::{EthertypeFilter, Filter, TagFilter};

/// The place of an entry in its table, and which frames it is for.
#[derive(Clone, Copy)]
pub(crate) struct Row {
    pub(crate) place: usize,
    pub(crate) filter: Filter,
    pub(crate) ethertype: EthertypeFilter,
}

impl Row {
    ghost use Rattle.rule_index.specs.Filters.{inner_in, outer_in, tags_in, type_key};
    ghost use Rattle.rule_index.specs.Order.{lowered};

    /// The number of tags of its kind.
    pub(crate) fn tags(&self) -> usize
        ensures { result ≡ tags_in self.now.filter }
    {
        match self.filter {
            Filter::NoTag => 0,
            Filter::OneTagDefault | Filter::OneTag(_) => 1,
            Filter::TwoTagDefault | Filter::TwoTag { .. } => 2,
        }
    }

    pub(crate) fn outer(&self) -> TagFilter
        ensures { result ≡ outer_in self.now.filter }
    {
        match self.filter {
            Filter::TwoTag { outer, .. } => outer,
            _ => TagFilter::ANY,
        }
    }

    pub(crate) fn inner(&self) -> TagFilter
        ensures { result ≡ inner_in self.now.filter }
    {
        match self.filter {
            Filter::OneTag(inner) => inner,
            Filter::TwoTag { inner, .. } => inner,
            _ => TagFilter::ANY,
        }
    }

    /// The row in a table without the entry of a place.
    pub(crate) fn lowered(self, place: usize) -> Row
        ensures { result ≡ lowered place self }
    {
        let mut row = self;
        if place < row.place {
            row.place -= 1;
        }
        row
    }

    /// The key of its type.
    pub(crate) fn type_key(&self) -> usize
        ensures { result ≡ type_key self.now.ethertype }
    {
        match self.ethertype {
            EthertypeFilter::Any => 0,
            EthertypeFilter::Ipv4 => 1,
            EthertypeFilter::Pppoe => 2,
            EthertypeFilter::Arp => 3,
            EthertypeFilter::Ipv6 => 4,
            EthertypeFilter::Eapol => 5,
        }
    }
}
