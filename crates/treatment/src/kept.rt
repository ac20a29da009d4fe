//! Received tags that are kept. Each is as a tag that is added, with all fields copied from one tag.
ghost use Rattle.std.specs.Prelude.{◌≡◌, IsTrue};
ghost use Rattle.vlan_rule.specs.Meaning.{addition_fits};
ghost use Rattle.treatment.specs.Compiled.{first_kept, second_kept};

use vlan_rule::{AddedTag, EligibleSource, PrioritySource, TpidSource, VidSource};

const COPY_OF_OUTER: AddedTag = AddedTag {
    priority: PrioritySource::Outer,
    vid: VidSource::Outer,
    tpid: TpidSource::Outer,
    eligible: EligibleSource::Outer,
};

const COPY_OF_INNER: AddedTag = AddedTag {
    priority: PrioritySource::Inner,
    vid: VidSource::Inner,
    tpid: TpidSource::Inner,
    eligible: EligibleSource::Inner,
};

/// The first received tag, if there is one and none is removed.
pub(crate) fn first(remove: u8, received: usize) -> Option<AddedTag>
    ensures value { result ≡ first_kept remove received }
    ensures fits { IsTrue (addition_fits result) }
{
    if remove == 0 && received > 0 {
        Some(COPY_OF_OUTER)
    } else {
        None
    }
}

/// The second received tag, if there is one and not both are removed.
pub(crate) fn second(remove: u8, received: usize) -> Option<AddedTag>
    ensures value { result ≡ second_kept remove received }
    ensures fits { IsTrue (addition_fits result) }
{
    if remove < 2 && received == 2 {
        Some(COPY_OF_INNER)
    } else {
        None
    }
}
