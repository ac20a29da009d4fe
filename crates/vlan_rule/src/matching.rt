//! Which frames a rule is for.
ghost use Rattle.std.specs.Prelude.{◌≡◌, ◌&&◌, List, ℕ};
ghost use Rattle.vlan_rule.specs.Choice.{are_tags, has_priority, has_tpid, has_type, has_vid, is_tag, matches};

use crate::filter::{EthertypeFilter, Filter, PriorityFilter, TagFilter, TpidFilter, VidFilter};
use crate::rule::Rule;
use tag_view::{CUSTOMER_TPID, Tag};

impl Rule {
    ghost use Rattle.vlan_rule.specs.Rule.{IsRuleOf};

    /// Whether the rule is for a frame, of which these are the tags, the outermost first, and the
    /// type behind them.
    pub fn matches(&self, tags: &[Tag], ethertype: u16, input_tpid: u16) -> bool
        ensures value { result
            ≡ (are_tags input_tpid self.now.filter tags.now
            && has_type self.now.ethertype ethertype) }
        ensures of_entry { (entry : List ℕ) → IsRuleOf entry self.now
            → result ≡ matches input_tpid tags.now ethertype entry }
    {
        self.filter.are_tags(tags, input_tpid) && self.ethertype.is(ethertype)
    }
}

impl Filter {
    /// Whether there are as many tags as it asks, and they are what it asks.
    fn are_tags(&self, tags: &[Tag], input_tpid: u16) -> bool
        ensures { result ≡ are_tags input_tpid self.now tags.now }
    {
        match (self, tags) {
            (Filter::NoTag, []) => true,
            (Filter::OneTagDefault, [_]) => true,
            (Filter::OneTag(filter), [tag]) => filter.is(tag, input_tpid),
            (Filter::TwoTagDefault, [_, _]) => true,
            (Filter::TwoTag { outer, inner }, [first, last]) => {
                outer.is(first, input_tpid) && inner.is(last, input_tpid)
            }
            _ => false,
        }
    }
}

impl TagFilter {
    fn is(&self, tag: &Tag, input_tpid: u16) -> bool
        ensures { result ≡ is_tag input_tpid self.now tag.now }
    {
        self.priority.is(tag) && self.vid.is(tag) && self.tpid.is(tag, input_tpid)
    }
}

impl PriorityFilter {
    /// Whether the priority of a tag is as it asks.
    pub fn is(&self, tag: &Tag) -> bool
        ensures { result ≡ has_priority self.now tag.now }
    {
        match *self {
            PriorityFilter::Any => true,
            PriorityFilter::Exactly(priority) => tag.pcp() == priority,
        }
    }
}

impl VidFilter {
    /// Whether the VID of a tag is as it asks.
    pub fn is(&self, tag: &Tag) -> bool
        ensures { result ≡ has_vid self.now tag.now }
    {
        match *self {
            VidFilter::Any => true,
            VidFilter::Exactly(vid) => tag.vid() == vid,
        }
    }
}

impl TpidFilter {
    /// Whether the TPID of a tag, and its drop eligible indicator, are as it asks.
    pub fn is(&self, tag: &Tag, input_tpid: u16) -> bool
        ensures { result ≡ has_tpid input_tpid self.now tag.now }
    {
        match *self {
            TpidFilter::Any => true,
            TpidFilter::Standard => tag.tpid() == CUSTOMER_TPID,
            TpidFilter::Input => tag.tpid() == input_tpid,
            TpidFilter::InputNotEligible => tag.tpid() == input_tpid && !tag.dei(),
            TpidFilter::InputEligible => tag.tpid() == input_tpid && tag.dei(),
        }
    }
}

impl EthertypeFilter {
    /// Whether the type behind a frame's tags is as it asks.
    pub fn is(&self, ethertype: u16) -> bool
        ensures { result ≡ has_type self.now ethertype }
    {
        match self {
            EthertypeFilter::Any => true,
            EthertypeFilter::Ipv4 => ethertype == 0x0800,
            EthertypeFilter::Pppoe => ethertype == 0x8863 || ethertype == 0x8864,
            EthertypeFilter::Arp => ethertype == 0x0806,
            EthertypeFilter::Ipv6 => ethertype == 0x86dd,
            EthertypeFilter::Eapol => ethertype == 0x888e,
        }
    }
}
