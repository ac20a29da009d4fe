//! The words of a rule.
use crate::added::usual_eligible;
use crate::ethertype::filter_word;
use std::alloc::AllocError;
use vlan_rule::{
    AddedTag, EligibleSource, EthertypeFilter, Filter, PriorityFilter, PrioritySource, Rank, Retag,
    Rule, TagFilter, TpidFilter, TpidSource, Treatment, VidFilter, VidSource,
};

/// Puts what a tag must be, each word but the first behind a space.
fn put_tag(text: &mut String, filter: &TagFilter, front: &str) -> Result<(), AllocError> {
    let mut separator = front;
    if let PriorityFilter::Exactly(priority) = filter.priority {
        write!(text, "{separator}pcp={priority}")?;
        separator = " ";
    }
    if let VidFilter::Exactly(vid) = filter.vid {
        write!(text, "{separator}vid={vid}")?;
        separator = " ";
    }
    let tpid = match filter.tpid {
        TpidFilter::Any => return Ok(()),
        TpidFilter::Standard => "tpid=8100",
        TpidFilter::Input => "tpid=input",
        TpidFilter::InputNotEligible => "tpid=input dei=0",
        TpidFilter::InputEligible => "tpid=input dei=1",
    };
    write!(text, "{separator}{tpid}")
}

/// Puts ` outer(..)` or ` inner(..)`, or nothing where the tag may be any.
fn put_group(text: &mut String, name: &str, filter: &TagFilter) -> Result<(), AllocError> {
    if *filter == TagFilter::ANY {
        return Ok(());
    }
    write!(text, " {name}(")?;
    put_tag(text, filter, "")?;
    text.push_str(")")
}

/// Puts the words for a predefined entry's filter.
fn put_predefined(text: &mut String, filter: &Filter) -> Result<(), AllocError> {
    text.push_str(match filter {
        Filter::NoTag => " tags=0 predefined",
        Filter::OneTag(_) | Filter::OneTagDefault => " tags=1 predefined",
        Filter::TwoTag { .. } | Filter::TwoTagDefault => " tags=2 predefined",
    })
}

/// Puts the words of a rule's filter, each behind a space.
pub fn put_filter(text: &mut String, rule: &Rule) -> Result<(), AllocError> {
    if rule.rank == Rank::Predefined {
        return put_predefined(text, &rule.filter);
    }
    match &rule.filter {
        Filter::NoTag => text.push_str(" tags=0")?,
        Filter::OneTagDefault => text.push_str(" tags=1 default")?,
        Filter::TwoTagDefault => text.push_str(" tags=2 default")?,
        Filter::OneTag(tag) => {
            text.push_str(" tags=1")?;
            put_tag(text, tag, " ")?;
        }
        Filter::TwoTag { outer, inner } => {
            text.push_str(" tags=2")?;
            put_group(text, "outer", outer)?;
            put_group(text, "inner", inner)?;
        }
    }
    if rule.ethertype != EthertypeFilter::Any {
        let word = filter_word(rule.ethertype);
        write!(text, " type={word}")?;
    }
    Ok(())
}

fn put_priority(text: &mut String, source: PrioritySource) -> Result<(), AllocError> {
    match source {
        PrioritySource::Fixed(priority) => write!(text, "pcp={priority}"),
        PrioritySource::Inner => text.push_str("pcp=inner"),
        PrioritySource::Outer => text.push_str("pcp=outer"),
        PrioritySource::Dscp => text.push_str("pcp=dscp"),
    }
}

fn put_vid(text: &mut String, source: VidSource) -> Result<(), AllocError> {
    match source {
        VidSource::Fixed(vid) => write!(text, " vid={vid}"),
        VidSource::Inner => text.push_str(" vid=inner"),
        VidSource::Outer => text.push_str(" vid=outer"),
    }
}

fn tpid_word(source: TpidSource) -> &'static str {
    match source {
        TpidSource::Inner => " tpid=inner",
        TpidSource::Outer => " tpid=outer",
        TpidSource::Output => " tpid=output",
        TpidSource::Standard => " tpid=8100",
    }
}

fn eligible_word(source: EligibleSource) -> &'static str {
    match source {
        EligibleSource::Inner => " dei=inner",
        EligibleSource::Outer => " dei=outer",
        EligibleSource::Clear => " dei=0",
        EligibleSource::Set => " dei=1",
    }
}

/// Puts ` outer(..)` or ` inner(..)`, or nothing where no tag is added.
fn put_added(text: &mut String, name: &str, tag: Option<AddedTag>) -> Result<(), AllocError> {
    let Some(tag) = tag else {
        return Ok(());
    };
    write!(text, " {name}(")?;
    put_priority(text, tag.priority)?;
    put_vid(text, tag.vid)?;
    text.push_str(tpid_word(tag.tpid))?;
    if tag.eligible != usual_eligible(tag.tpid) {
        text.push_str(eligible_word(tag.eligible))?;
    }
    text.push_str(")")
}

/// Puts how the tags change.
fn put_retag(text: &mut String, retag: &Retag) -> Result<(), AllocError> {
    let adds = retag.outer.is_some() || retag.inner.is_some();
    if retag.remove > 0 || !adds {
        write!(text, " remove={}", retag.remove)?;
    }
    put_added(text, "outer", retag.outer)?;
    put_added(text, "inner", retag.inner)
}

/// Puts the words of what becomes of frames, each behind a space.
pub fn put_treatment(text: &mut String, treatment: &Treatment) -> Result<(), AllocError> {
    match treatment {
        Treatment::Discard => text.push_str(" drop"),
        Treatment::Retag(retag) => put_retag(text, retag),
    }
}
