//! Lanes that are out.
ghost use Rattle.std.specs.Prelude.{◌≡◌, Some};
ghost use Rattle.std.specs.Option.{ForSome};
ghost use Rattle.left_right.specs.Sides.{view};
ghost use Rattle.plan_publish.specs.History.{key_of};

use crate::edition::Edition;
use crate::entering::{PlanReader, enter_with};
use crate::held::{Guard, Held};
use crate::history::Prefix;
use crate::rule::{Published, View};
use crate::told::Told;
use left_right::reader::Reader;
use std::marker::Brand;

/// A lane that is out. It may go to a thread of its own.
#[derive(Drop)]
pub struct Lane {
    // What the lane holds has it while that lives.
    pub(crate) reader: Option<Reader<Edition, View, Published>>,
    number: u16,
    // It begins with all that the lane learnt.
    learnt: Prefix,
    ghost at_home: { ForSome reader (λ r. (view r.place).home ≡ Some (key_of learnt.seen.book)) },
}

impl Lane {
    ghost use Rattle.std.specs.Prelude.{◌⊎◌, None, IfSome, false};
    ghost use Rattle.std.specs.Bool.{OnTrue};
    ghost use Rattle.std.specs.Borrow.{sem, RestsIfNone};
    ghost use Rattle.plan_publish.specs.Requests.{StartsWith};
    ghost use Rattle.plan_publish.specs.Told.{told_home, told_list};
    ghost use Rattle.plan_publish.specs.Lane.{number_of, known_by, held_by, learnt_by, home_of, HasEntered, HasEnteredOther, HasHeld, HeldPrefixes, IsSameLane, IsUnchanged};
    ghost use Rattle.plan_publish.specs.Holding.{Holds};
    ghost use Rattle.plan_publish.specs.Held.{held_entities, held_lane, held_lists, held_version};
    ghost use Rattle.plan_publish.specs.contracts.lane.Lane.{the_row};

    pub(crate) fn new(reader: PlanReader, number: u16, learnt: Prefix) -> Lane
        requires { (view reader.place).home ≡ Some (key_of learnt.seen.book) }
        ensures { (number_of result ≡ number) × (known_by result ≡ Some (view reader.place))
            × (result.learnt ≡ learnt) }
    {
        Lane {
            reader: Some(reader),
            number,
            learnt,
        }
    }

    /// The lane's number: `open` numbers them from 0.
    pub fn number(&self) -> u16
        ensures { result ≡ number_of self.now }
    {
        self.number
    }

    /// Learns what was published: from now on the lane holds nothing that begins with less. Who learns an older token again
    /// forgets nothing. The token has to come from the same `open`.
    pub fn learn(&mut self, told: &Told)
        requires { told_home told.now ≡ home_of self.old }
        ensures told { StartsWith (learnt_by self.new) (told_list told.now) }
        ensures before { StartsWith (learnt_by self.new) (learnt_by self.old) }
        ensures either { (learnt_by self.new ≡ told_list told.now)
            ⊎ (learnt_by self.new ≡ learnt_by self.old) }
        ensures number { number_of self.new ≡ number_of self.old }
        ensures held { held_by self.new ≡ held_by self.old }
        ensures home { home_of self.new ≡ home_of self.old }
    {
        if self.learnt.begins(&told.published) {
            self.learnt = told.published.again();
        }
    }

    /// Takes the version that was published last, which the lane then holds until it leaves. It waits for nobody, takes no
    /// memory, and writes nothing that another lane writes.
    ///
    /// It is `None` where `left_right` gives no copy: after the control was closed, or where an earlier [`Held`] was forgotten
    /// without being dropped. It would be `None` too where the copy didn't have all that the lane learnt, which never comes. The
    /// lane is then unchanged.
    pub fn enter(&mut self) -> Option<Held<'_>>
        ensures* none { sem 𝓛 (RestsIfNone the_row self.entry (λ h. h.lane.ghost_name) result
            (λ after. IsUnchanged self.old after)) }
        ensures same_reference { IfSome result (λ h. h.lane.ghost_name ≡ self.entry.ghost_name) }
        ensures lane { IfSome result (λ h. IsSameLane self.old (held_lane h)) }
        ensures holds { IfSome result (λ h. (before : _) × (held_by self.old ≡ Some before)
            × Holds before (learnt_by self.old) (held_entities h) (held_version h) (held_lists h)) }
    {
        match enter_with::<Brand>(self.reader.take()?, &self.learnt) {
            Ok(reading) => Some(Guard {
                lane: self,
                reading,
            }),
            Err(reader) => {
                self.reader = Some(reader);
                None
            }
        }
    }

    /// Learns what was published, and says whether the lane, which enters for a moment, holds just that. Then all lists that it held
    /// before are prefixes of the token's. It is false where the lane can't enter, and where more was published meanwhile. It waits
    /// for nobody, and takes no memory. The token has to come from the same `open`.
    pub fn confirm(&mut self, told: &Told) -> bool
        requires { told_home told.now ≡ home_of self.old }
        ensures held { OnTrue result (HeldPrefixes (told_list told.now) self.old) }
        ensures lists { (held_by self.new ≡ held_by self.old) ⊎ HasEntered self.old self.new }
        ensures otherwise { result ≡ false → (held_by self.new ≡ held_by self.old)
            ⊎ HasEnteredOther (told_list told.now) self.old self.new }
        ensures told { StartsWith (learnt_by self.new) (told_list told.now) }
        ensures before { StartsWith (learnt_by self.new) (learnt_by self.old) }
        ensures either { (learnt_by self.new ≡ told_list told.now)
            ⊎ (learnt_by self.new ≡ learnt_by self.old) }
        ensures number { number_of self.new ≡ number_of self.old }
        ensures home { home_of self.new ≡ home_of self.old }
    {
        self.learn(told);
        match self.pass() {
            Some(version) => version == told.version(),
            None => false,
        }
    }

    /// Enters, and leaves again. It gives the version that the lane held, or None where it can't enter.
    fn pass(&mut self) -> Option<u64>
        ensures same { IsSameLane self.old self.new }
        ensures none { result ≡ None → held_by self.new ≡ held_by self.old }
        ensures held { IfSome result (HasHeld self.old self.new) }
    {
        let held = self.enter()?;
        let version = held.version();
        held.leave();
        Some(version)
    }
}
