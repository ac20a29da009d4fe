//! The rule over the copy that can be entered, and over what the seats know.
ghost use Rattle.plan_publish.specs.Rule.{Kept, nothing_known, Enters, note_of, informed, Publishes};

use crate::edition::Edition;
use atomic_table::{Join, Split};
use crossbeam_utils::rule::{Outcome, Protocol};
use omci_msg::Request;
use std::collections::LinkedList;
use std::marker::{Brand, PhantomData};

/// What a seat knows. No value of it is made.
pub struct View {
    /// Of the control: the published requests.
    pub published: LinkedList<Request>,
    /// Of a lane: the lists that it held, the last one first.
    pub held: LinkedList<LinkedList<Request>>,
    /// Of the control and of a lane: which history it is.
    pub home: Option<(u64, u64, u64)>,
}

/// The rule.
pub struct Published;

impl Protocol<Edition, View> for Published {
    ghost holds = { Kept };

    ghost first = { nothing_known };
}

/// The test that a lane makes of the copy that it has entered. Each call picks it.
pub(crate) trait Tests {
    ghost use Rattle.std.specs.Prelude.{Bool};
    ghost use Rattle.plan_publish.specs.declared.edition.Edition.{Edition};

    ghost passes: { Edition → Bool };
}

impl Tests for Brand {
    ghost use Rattle.std.specs.Prelude.{true};

    ghost passes = { λ _. true };
}

/// What a lane that makes a test knows as it enters.
pub(crate) struct Entering<J> {
    of: PhantomData<J>,
}

impl<J: Tests> Outcome<Edition, View> for Entering<J> {
    ghost then = { λ v _ y w. Enters J.passes v y w };
}

/// What the control tells: which history it is.
pub(crate) struct Notes;

impl Split<View> for Notes {
    ghost left = { λ v. v };

    ghost right = { note_of };
}

impl Join<View> for Notes {
    ghost both = { informed };

    ghost spent = { nothing_known };
}

/// Requests that are to be published. Each call picks them.
pub(crate) trait Pending {
    ghost use Rattle.std.specs.Prelude.{List};
    ghost use Rattle.omci_msg.specs.declared.Request.{Request};

    ghost pending: { List Request };
}

impl Pending for Brand {
    ghost use Rattle.std.specs.Prelude.{[]};

    ghost pending = { [] };
}

/// What the control knows as it has published them.
pub(crate) struct Publishing<J> {
    of: PhantomData<J>,
}

impl<J: Pending> Outcome<Edition, View> for Publishing<J> {
    ghost then = { λ v _ y w. Publishes J.pending v y w };
}
