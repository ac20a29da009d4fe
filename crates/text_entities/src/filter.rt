//! The filter of a rule in words.
use crate::field::FieldWords;
use std::fmt;
use tag_view::CUSTOMER_TPID;
use vlan_rule::{EthertypeFilter, Filter, PriorityFilter, Rule, TagFilter, TpidFilter, VidFilter};

/// What a rule asks of a frame, in words: `one tag (priority any, VID 100, TPID 0x8100), Ethertype any`.
#[derive(Clone, Copy)]
pub struct FilterWords<'a>(pub &'a Rule);

impl fmt::Display for FilterWords<'_> {
    fn fmt<W: fmt::Write>(&self, f: &mut fmt::Formatter<W>) -> fmt::Result {
        let tags = TagsFilterWords(&self.0.filter);
        let ethertype = ethertype_words(self.0.ethertype);
        write!(f, "{tags}, Ethertype {ethertype}")
    }
}

/// Which tags a frame must have.
#[derive(Clone, Copy)]
struct TagsFilterWords<'a>(&'a Filter);

impl fmt::Display for TagsFilterWords<'_> {
    fn fmt<W: fmt::Write>(&self, f: &mut fmt::Formatter<W>) -> fmt::Result {
        let words = match self.0 {
            Filter::NoTag => "no tag",
            Filter::OneTagDefault => "any one tag",
            Filter::TwoTagDefault => "any two tags",
            Filter::OneTag(tag) => {
                let tag = TagFilterWords(tag);
                return write!(f, "one tag ({tag})");
            }
            Filter::TwoTag { outer, inner } => {
                let outer = TagFilterWords(outer);
                let inner = TagFilterWords(inner);
                return write!(f, "two tags (outer: {outer}; inner: {inner})");
            }
        };
        f.write_str(words)
    }
}

/// What a tag must be.
#[derive(Clone, Copy)]
struct TagFilterWords<'a>(&'a TagFilter);

impl fmt::Display for TagFilterWords<'_> {
    fn fmt<W: fmt::Write>(&self, f: &mut fmt::Formatter<W>) -> fmt::Result {
        let priority = priority_words(self.0.priority);
        let vid = vid_words(self.0.vid);
        let tpid = tpid_words(self.0.tpid);
        write!(f, "priority {priority}, VID {vid}, TPID {tpid}")
    }
}

/// What the priority of a tag must be.
fn priority_words(filter: PriorityFilter) -> FieldWords {
    match filter {
        PriorityFilter::Any => FieldWords::Words("any"),
        PriorityFilter::Exactly(priority) => FieldWords::Number(u16::from(priority)),
    }
}

/// What the VID of a tag must be.
fn vid_words(filter: VidFilter) -> FieldWords {
    match filter {
        VidFilter::Any => FieldWords::Words("any"),
        VidFilter::Exactly(vid) => FieldWords::Number(vid),
    }
}

/// What the TPID of a tag must be, and its drop eligible indicator.
fn tpid_words(filter: TpidFilter) -> FieldWords {
    match filter {
        TpidFilter::Any => FieldWords::Words("any"),
        TpidFilter::Standard => FieldWords::Type(CUSTOMER_TPID),
        TpidFilter::Input => FieldWords::Words("input"),
        TpidFilter::InputNotEligible => FieldWords::Words("input with DEI 0"),
        TpidFilter::InputEligible => FieldWords::Words("input with DEI 1"),
    }
}

/// What the type behind the tags must be.
fn ethertype_words(filter: EthertypeFilter) -> &'static str {
    match filter {
        EthertypeFilter::Any => "any",
        EthertypeFilter::Ipv4 => "0x0800 (IPv4)",
        EthertypeFilter::Pppoe => "0x8863 or 0x8864 (PPPoE)",
        EthertypeFilter::Arp => "0x0806 (ARP)",
        EthertypeFilter::Ipv6 => "0x86dd (IPv6)",
        EthertypeFilter::Eapol => "0x888e (EAPOL)",
    }
}
