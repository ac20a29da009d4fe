//! How the word of an outgoing tag is made.
ghost use Rattle.std.specs.Prelude.{◌≡◌, IsTrue, Some};
ghost use Rattle.vlan_rule.specs.Meaning.{addition_fits};
ghost use Rattle.treatment.specs.Mix.{mix_of, mixed};
ghost use Rattle.treatment.specs.Compiled.{words_by};

use crate::masks;
use vlan_rule::{AddedTag, TableSettings};

/// The four sources of a word: bits that are fixed, and which bits are copied from the word of the first
/// received tag, from that of the last one, and from the priority of the DSCP. No bit has two sources.
#[derive(Clone, Copy, Default)]
pub(crate) struct Mix {
    pub(crate) fixed: u32,
    pub(crate) outer: u32,
    pub(crate) inner: u32,
    pub(crate) dscp: u32,
}

impl Mix {
    /// The mix that makes an added tag.
    pub(crate) fn of(added: &AddedTag, settings: &TableSettings) -> Mix
        requires { IsTrue (addition_fits (Some added.now)) }
        ensures { result ≡ mix_of settings.now added.now }
    {
        Mix {
            fixed: masks::fixed(added, settings).word(),
            outer: masks::of_outer(added).word(),
            inner: masks::of_inner(added).word(),
            dscp: masks::of_dscp(added).word(),
        }
    }

    /// The word that is made of that of the first tag, that of the last one, and a priority that stands
    /// where a tag has it.
    #[inline(always)]
    pub(crate) fn word(&self, first: u32, last: u32, marking: u32) -> u32
        ensures { result ≡ mixed self.now first last marking }
    {
        self.fixed | first & self.outer | last & self.inner | marking & self.dscp
    }
}

/// The words that four mixes make, with a priority that stands where a number has its lowest bits.
#[inline(always)]
pub(crate) fn words(mixes: &[Mix; 4], first: u32, last: u32, priority: u8) -> [u32; 4]
    ensures { result ≡ words_by mixes.now first last priority }
{
    let marking = u32::from(priority) << 13;
    [
        mixes[0].word(first, last, marking),
        mixes[1].word(first, last, marking),
        mixes[2].word(first, last, marking),
        mixes[3].word(first, last, marking),
    ]
}
