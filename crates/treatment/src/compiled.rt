//! Compiled treatments.
ghost use Rattle.std.specs.Prelude.{◌≡◌, ◌≤◌, ◌<◌, ◌+◌, ◌++◌, IfSome, IsTrue, List, ℕ, Option, Some, length, map, take};
ghost use Rattle.tag_view.specs.Tag.{TagFields};
ghost use Rattle.tag_view.specs.Word.{tag_of};
ghost use Rattle.vlan_rule.specs.Meaning.{addition_fits, treatment_fits, treatment_of};
ghost use Rattle.vlan_rule.specs.declared.settings.TableSettings.{TableSettings as Settings};
ghost use Rattle.vlan_rule.specs.declared.treatment.Treatment.{Treatment as By};
ghost use Rattle.vlan_rule.specs.declared.treatment.Treatment.TheVariants.{Retag as retag_by};
ghost use Rattle.treatment.specs.Treatment.{treated, treated_by};
ghost use Rattle.treatment.specs.Mix.{mix_of};
ghost use Rattle.treatment.specs.Compiled.{AreSources, Treats, asks_dscp, of_option, outgoing, takes_dscp, used, words_by};

use crate::kept;
use crate::mix::{self, Mix};
use std::marker::Model;
use vlan_rule::{AddedTag, Retag, TableSettings, Treatment};

/// A treatment for the frames with one number of received tags: how the word of each outgoing tag is
/// made, the outermost first. It is 68 bytes.
#[derive(Clone, Copy)]
pub struct Treat {
    mixes: [Mix; 4],
    count: u8,
}

impl Model for Treat {
    ghost use Rattle.std.specs.Prelude.{◌≤◌};
    ghost use Rattle.treatment.specs.Compiled.{Compiled};

    ghost Value = { Compiled };

    ghost view = { λ t. record { mixes = t.mixes; count = t.count } };

    ghost invariant = { λ t. t.count ≤ 4 };

    ghost inverse = { λ t. record { mixes = t.mixes; count = t.count } };
}

impl Treat {
    /// The treatment, with the settings of its rule's table, for frames with so many received tags; None
    /// where such frames are dropped.
    pub fn of(treatment: &Treatment, settings: &TableSettings, received: usize) -> Option<Treat>
        requires fits { IsTrue (treatment_fits treatment.now) }
        requires two { received ≤ 2 }
        ensures treats { Treats treatment.now settings.now received result }
        ensures dscp { IfSome result (λ compiled. asks_dscp compiled ≡ takes_dscp treatment.now) }
    {
        match treatment {
            Treatment::Discard => None,
            Treatment::Retag(retag) => Some(Treat::of_retag(retag, settings, received)),
        }
    }

    fn of_retag(retag: &Retag, settings: &TableSettings, received: usize) -> Treat
        requires { IsTrue (treatment_fits (retag_by retag.now)) }
        ensures { used result ≡ map (mix_of settings.now) (outgoing retag.now received) }
    {
        let mut treat = Treat {
            mixes: [Mix::default(); 4],
            count: 0,
        };
        treat.append(&retag.outer, settings);
        treat.append(&retag.inner, settings);
        treat.append(&kept::first(retag.remove, received), settings);
        treat.append(&kept::second(retag.remove, received), settings);
        treat
    }

    /// Puts the mix of a tag, if there is one, behind the others.
    fn append(&mut self, added: &Option<AddedTag>, settings: &TableSettings)
        requires room { self.old.count < 4 }
        requires fits { IsTrue (addition_fits added.now) }
        ensures items { used self.new
            ≡ used self.old ++ map (mix_of settings.now) (of_option added.now) }
        ensures one { self.new.count ≤ self.old.count + 1 }
    {
        if let Some(added) = added {
            self.mixes[usize::from(self.count)] = Mix::of(added, settings);
            self.count += 1;
        }
    }

    /// Whether a tag has the priority of the frame's DSCP. Where none has, the words that `words` means
    /// are the same whatever priority it is handed.
    pub fn uses_dscp(&self) -> bool
        ensures { result ≡ asks_dscp self.now }
    {
        self.mixes[..usize::from(self.count)]
            .iter()
            .any(|mix| mix.dscp > 0)
    }

    /// How many tags a frame leaves with.
    #[inline(always)]
    pub fn count(&self) -> usize
        ensures value { result ≡ self.now.count }
        ensures four { result ≤ 4 }
    {
        usize::from(self.count)
    }

    /// The words of the tags that a frame leaves with, outermost first, of the words of its first and its
    /// last received tag ([`MISSING_WORD`] for both where it has none) and the priority that the table's mapping has
    /// for its DSCP (0 without one). Of the four words the first `count` are meant; the others have no
    /// meaning.
    ///
    /// [`MISSING_WORD`]: tag_view::MISSING_WORD
    #[inline(always)]
    pub fn words(&self, first: u32, last: u32, priority: u8) -> [u32; 4]
        ensures value { result ≡ words_by self.now.mixes first last priority }
        ensures treated { (by : By) (settings : Settings) (tags : List TagFields) (dscp : Option ℕ)
            → Treats by settings (length tags) (Some self.now)
            → AreSources self.now settings tags dscp first last priority
            → Some (map tag_of (take self.now.count result)) ≡ treated_by by settings tags dscp }
        ensures of_entry { (entry : List ℕ) (settings : Settings)
            (tags : List TagFields) (dscp : Option ℕ)
            → Treats (treatment_of entry) settings (length tags) (Some self.now)
            → AreSources self.now settings tags dscp first last priority
            → Some (map tag_of (take self.now.count result)) ≡ treated entry settings tags dscp }
    {
        mix::words(&self.mixes, first, last, priority)
    }
}
