//! The tags with which frames are to leave, as an entry of a table changes them.
ghost use Rattle.std.specs.Prelude.{◌≡◌};
ghost use Rattle.expectation_rows.specs.Wanted.{added_with, retag_for, slot_for, source_for};

use frame_expectation::{WantedTag, WantedTreatment};
use tag_view::CUSTOMER_TPID;
use vlan_rule::{AddedTag, Retag, TableSettings, TpidSource};

/// The tags stay as they are.
pub(crate) const KEEP: Retag = Retag {
    remove: 0,
    outer: None,
    inner: None,
};

/// How the tags of frames change whose outer and inner tag have these TPIDs, of which none counts where any are wanted. None where some are wanted
/// that no entry of the port's table gives such frames.
pub(crate) fn retag_for(
    treatment: &WantedTreatment,
    settings: &TableSettings,
    outer: u16,
    inner: u16,
) -> Option<Retag>
    ensures { result ≡ retag_for treatment.now settings.now outer inner }
{
    match treatment {
        WantedTreatment::Any | WantedTreatment::Unchanged => Some(KEEP),
        WantedTreatment::Retag(wanted) => Some(Retag {
            remove: wanted.remove.min(2),
            outer: slot_for(&wanted.outer, settings, outer, inner)?,
            inner: slot_for(&wanted.inner, settings, outer, inner)?,
        }),
    }
}

/// The tag that is added, if one is wanted. None where no entry adds it.
fn slot_for(
    wanted: &Option<WantedTag>,
    settings: &TableSettings,
    outer: u16,
    inner: u16,
) -> Option<Option<AddedTag>>
    ensures { result ≡ slot_for wanted.now settings.now outer inner }
{
    match wanted {
        None => Some(None),
        Some(tag) => Some(Some(added_with(tag.added, tag.tpid, settings, outer, inner)?)),
    }
}

/// A tag that is added, with a TPID that is named, if one is.
fn added_with(
    added: AddedTag,
    tpid: Option<u16>,
    settings: &TableSettings,
    outer: u16,
    inner: u16,
) -> Option<AddedTag>
    ensures { result ≡ added_with added tpid settings.now outer inner }
{
    match tpid {
        None => Some(added),
        Some(number) => Some(AddedTag {
            priority: added.priority,
            vid: added.vid,
            tpid: source_for(number, settings, outer, inner)?,
            eligible: added.eligible,
        }),
    }
}

/// Where a TPID that is named comes from.
fn source_for(number: u16, settings: &TableSettings, outer: u16, inner: u16) -> Option<TpidSource>
    ensures { result ≡ source_for number settings.now outer inner }
{
    if number == CUSTOMER_TPID {
        return Some(TpidSource::Standard);
    }
    if number == settings.output_tpid {
        return Some(TpidSource::Output);
    }
    if number == outer {
        return Some(TpidSource::Outer);
    }
    if number == inner {
        return Some(TpidSource::Inner);
    }
    None
}
