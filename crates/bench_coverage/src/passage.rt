//! The way through the versions at one port.
ghost use Rattle.std.specs.Prelude.{◌≡◌, ◌+◌, ◌-◌, ◌<◌, ◌≤◌, ◌^◌, ℕ, All, Decides, IfOk, IfSome, List, OnOk, Some, if◌then◌else◌, slice_get, take};
ghost use Rattle.std.specs.Option.{option_map};
ghost use Rattle.mib_state.specs.Entities.{nothing};
ghost use Rattle.mib_state.specs.After.{after};
ghost use Rattle.mib_state.specs.Step.{left};
ghost use Rattle.frame_meaning.specs.Meaning.{meaning};
ghost use Rattle.frame_rows.specs.Class.{class_of, ending_by};
ghost use Rattle.frame_classes.specs.Classes.{AreClasses};
ghost use Rattle.frame_sameness.specs.Same.{AreSame};
ghost use Rattle.script_heads.specs.Heads.{IsHeadOf};
ghost use Rattle.bench_coverage.specs.Coverage.{examples_of};
ghost use Rattle.bench_coverage.specs.Stretches.{Begins, entities_by};

use crate::known::KnownClasses;
use crate::uses::EntryUses;
use bench_history::Digits;
use forward_plan::{Live, Verdict};
use frame_classes::{ClassExample, Ending, FrameClass, classes};
use frame_rows::Rows;
use frame_sameness::are_same;
use mib_state::Mib;
use omci_msg::Request;
use script_heads::read_head;
use script_lines::MOST_SPELLED;
use std::alloc::{AllocError, Global};
use std::mem::drop;

/// A port at a version, on the way through the versions.
#[derive(Drop)]
pub(crate) struct Passage<'r> {
    // The requests that versions count, behind so many that belong to version 0.
    requests: &'r [Request],
    base: usize,
    pub(crate) port: u16,
    // How many bytes a frame has at least.
    least: usize,
    version: usize,
    // The first version of its stretch.
    pub(crate) first: usize,
    states: States,
    // What is kept for the frames of the version.
    uses: Option<EntryUses>,
    rows: Rows,
    known: KnownClasses,
}

/// The managed entities of a version, twice: one of them goes ahead to the next version.
#[derive(Drop)]
struct States {
    before: Mib,
    here: Live,
}

/// Carries out the first of some requests: so many, or all.
fn carry_out_first(requests: &[Request], count: usize, before: &mut Mib, here: &mut Live)
    requires before { before.old.entities ≡ nothing }
    requires here { here.old ≡ nothing }
    ensures before { before.new.entities ≡ after (take count requests.now) }
    ensures here { here.new ≡ after (take count requests.now) }
{
    for place in 0..count.min(requests.len()) {
        let request = &requests[place];
        let _ = before.carry_out(request);
        here.apply(request);
    }
}

impl States {
    /// Those that the first of some requests leave: so many, or all.
    fn behind(alloc: Global, requests: &[Request], count: usize) -> Result<States, AllocError>
        ensures before { IfOk result (λ states. states.before.entities ≡ after (take count requests.now)) }
        ensures here { IfOk result (λ states. states.here ≡ after (take count requests.now)) }
    {
        let mut before = Mib::new(alloc)?;
        let Ok(mut here) = Live::new(alloc) else {
            drop(before);
            return Err(AllocError);
        };
        carry_out_first(requests, count, &mut before, &mut here);
        Ok(States { before, here })
    }

    /// Goes to the next version, and says whether it is the same for each frame of at least so many bytes that comes in at a port.
    fn go_on(
        &mut self,
        alloc: Global,
        request: &Request,
        port: u16,
        least: usize,
    ) -> Result<bool, AllocError>
        ensures before { OnOk result (self.new.before.entities
            ≡ left request.now.action self.old.before.entities request.now) }
        ensures here { OnOk result (self.new.here ≡ left request.now.action self.old.here request.now) }
        ensures same { IfOk result (λ same. Decides same
            (AreSame self.old.before.entities (left request.now.action self.old.here request.now) port least)) }
    {
        self.here.apply(request);
        let same = are_same(alloc, &self.before, self.here.mib(), port, least)?;
        let _ = self.before.carry_out(request);
        Ok(same)
    }
}

/// The first version of the stretch of the next one, which is the same to all frames as this one or not.
fn first_of_next(same: bool, first: usize, version: usize) -> usize
    requires { version + 1 < 2 ^ 64 }
    ensures { result ≡ (if same then first else (version + 1)) }
{
    if same { first } else { version + 1 }
}

/// The place of the request that leads to a version, if one does.
fn place_before(base: usize, version: usize) -> Option<usize>
    ensures { IfSome result (λ place. (1 ≤ version) × (place ≡ base + (version - 1))) }
{
    base.checked_add(version.checked_sub(1)?)
}

impl<'r> Passage<'r> {
    ghost use Rattle.bench_coverage.specs.Passage.{GoesOn, IsAt, IsPassage, IsReady, entities_in};

    /// A version of a port that begins a stretch, with the managed entities of that version.
    fn first_of(
        alloc: Global,
        requests: &'r [Request],
        base: usize,
        port: u16,
        least: usize,
        version: usize,
        states: States,
    ) -> Result<Passage<'r>, AllocError>
        requires before { states.before.entities ≡ entities_by requests.now base version }
        requires here { states.here ≡ entities_by requests.now base version }
        requires begins { Begins (entities_by requests.now base) port least version }
        ensures ready { IfOk result IsReady }
        ensures requests { IfOk result (λ passage. passage.requests.now ≡ requests.now) }
        ensures base { IfOk result (λ passage. passage.base ≡ base) }
        ensures port { IfOk result (λ passage. passage.port ≡ port) }
        ensures least { IfOk result (λ passage. passage.least ≡ least) }
        ensures version { IfOk result (λ passage. passage.version ≡ version) }
    {
        // What is owned is let go by calls, so that a proof of this function doesn't see each part of it on each way out.
        let Ok(uses) = EntryUses::at(alloc, states.here.mib(), port) else {
            drop(states);
            return Err(AllocError);
        };
        let Ok(rows) = Rows::of(alloc, states.here.mib(), port) else {
            drop((states, uses));
            return Err(AllocError);
        };
        let Ok(known) = KnownClasses::new(alloc) else {
            drop((states, uses, rows));
            return Err(AllocError);
        };
        Ok(Passage {
            requests,
            base,
            port,
            least,
            version,
            first: version,
            states,
            uses,
            rows,
            known,
        })
    }

    /// The version 0 of a port.
    pub(crate) fn at(
        alloc: Global,
        requests: &'r [Request],
        base: usize,
        port: u16,
        least: usize,
    ) -> Result<Passage<'r>, AllocError>
        ensures ready { IfOk result IsReady }
        ensures requests { IfOk result (λ passage. passage.requests.now ≡ requests.now) }
        ensures base { IfOk result (λ passage. passage.base ≡ base) }
        ensures port { IfOk result (λ passage. passage.port ≡ port) }
        ensures least { IfOk result (λ passage. passage.least ≡ least) }
        ensures version { IfOk result (λ passage. passage.version ≡ 0) }
    {
        let states = States::behind(alloc, requests, base)?;
        Passage::first_of(alloc, requests, base, port, least, 0, states)
    }

    /// A version of a port, if it begins a stretch behind the first one: if some frame tells it from the version before.
    fn begun(
        alloc: Global,
        requests: &'r [Request],
        base: usize,
        port: u16,
        least: usize,
        version: usize,
    ) -> Result<Option<Passage<'r>>, AllocError>
        ensures { IfOk result (λ found. IfSome found (IsAt requests.now base port least version)) }
    {
        let Some(place) = place_before(base, version) else {
            return Ok(None);
        };
        let Some(request) = requests.get(place) else {
            return Ok(None);
        };
        let mut states = States::behind(alloc, requests, place)?;
        if states.go_on(alloc, request, port, least)? {
            return Ok(None);
        }
        let passage = Passage::first_of(alloc, requests, base, port, least, version, states)?;
        Ok(Some(passage))
    }

    /// A version of a port.
    pub(crate) fn to(
        alloc: Global,
        requests: &'r [Request],
        base: usize,
        port: u16,
        least: usize,
        version: usize,
    ) -> Result<Passage<'r>, AllocError>
        ensures { IfOk result (IsAt requests.now base port least version) }
    {
        // Where frames wait for a set-up, its last request mostly changes what becomes of them: then none before it needs a look.
        if let Some(passage) = Passage::begun(alloc, requests, base, port, least, version)? {
            return Ok(passage);
        }
        let mut passage = Passage::at(alloc, requests, base, port, least)?;
        passage.advance(alloc, version)?;
        Ok(passage)
    }

    /// The request that leads to the next version, if there is one.
    fn next(&self) -> Option<&'r Request>
        ensures { option_map (λ (request : _). request.now) result
            ≡ slice_get self.now.requests.now (self.now.base + self.now.version) }
    {
        match self.base.checked_add(self.version) {
            Some(place) => self.requests.get(place),
            None => None,
        }
    }

    /// Carries out the request that leads to the next version.
    fn follow(&mut self, alloc: Global, request: &Request) -> Result<(), AllocError>
        requires passes { IsPassage self.old }
        requires next { slice_get self.old.requests.now (self.old.base + self.old.version) ≡ Some request.now }
        requires more { self.old.version + 1 < 2 ^ 64 }
        ensures passes { OnOk result (IsPassage self.new) }
        ensures version { OnOk result (self.new.version ≡ self.old.version + 1) }
        ensures port { OnOk result (self.new.port ≡ self.old.port) }
        ensures goes_on { OnOk result (GoesOn self.old self.new) }
    {
        let same = self.states.go_on(alloc, request, self.port, self.least)?;
        self.first = first_of_next(same, self.first, self.version);
        self.version += 1;
        Ok(())
    }

    /// Goes to the next version.
    fn step(&mut self, alloc: Global) -> Result<(), AllocError>
        requires passes { IsPassage self.old }
        requires more { self.old.version + 1 < 2 ^ 64 }
        ensures passes { OnOk result (IsPassage self.new) }
        ensures version { OnOk result (self.new.version ≡ self.old.version + 1) }
        ensures port { OnOk result (self.new.port ≡ self.old.port) }
        ensures goes_on { OnOk result (GoesOn self.old self.new) }
    {
        let Some(request) = self.next() else {
            self.version += 1;
            return Ok(());
        };
        self.follow(alloc, request)
    }

    /// Goes ahead to a version of the same port.
    fn advance(&mut self, alloc: Global, version: usize) -> Result<(), AllocError>
        requires ready { IsReady self.old }
        requires ahead { self.old.version ≤ version }
        ensures ready { OnOk result (IsReady self.new) }
        ensures version { OnOk result (self.new.version ≡ version) }
        ensures port { OnOk result (self.new.port ≡ self.old.port) }
        ensures goes_on { OnOk result (GoesOn self.old self.new) }
    {
        if self.version == version {
            return Ok(());
        }
        'each_version: while self.version < version {
            self.step(alloc)?;
        }
        self.uses = EntryUses::at(alloc, self.states.here.mib(), self.port)?;
        self.rows = Rows::of(alloc, self.states.here.mib(), self.port)?;
        self.known = KnownClasses::new(alloc)?;
        Ok(())
    }

    /// Goes ahead to a version of a port, one of which is another.
    // It stands apart, since a call of it clears what it may need on the stack, which is much, and most frames are of the version before.
    #[inline(never)]
    fn move_to(&mut self, alloc: Global, port: u16, version: usize) -> Result<(), AllocError>
        requires ready { IsReady self.old }
        requires ahead { self.old.port ≡ port → self.old.version ≤ version }
        ensures ready { OnOk result (IsReady self.new) }
        ensures version { OnOk result (self.new.version ≡ version) }
        ensures port { OnOk result (self.new.port ≡ port) }
        ensures goes_on { OnOk result (GoesOn self.old self.new) }
    {
        if self.port == port {
            return self.advance(alloc, version);
        }
        *self = Passage::to(alloc, self.requests, self.base, port, self.least, version)?;
        Ok(())
    }

    /// Goes ahead to a version of a port, which are the same or others.
    pub(crate) fn go_to(
        &mut self,
        alloc: Global,
        port: u16,
        version: usize,
    ) -> Result<(), AllocError>
        requires ready { IsReady self.old }
        requires ahead { self.old.port ≡ port → self.old.version ≤ version }
        ensures ready { OnOk result (IsReady self.new) }
        ensures version { OnOk result (self.new.version ≡ version) }
        ensures port { OnOk result (self.new.port ≡ port) }
        ensures goes_on { OnOk result (GoesOn self.old self.new) }
    {
        if self.port == port && self.version == version {
            return Ok(());
        }
        self.move_to(alloc, port, version)
    }

    /// How a frame ends that comes in by this version.
    fn ending(&self, bytes: &[u8]) -> Ending
        ensures { result ≡ ending_by (meaning self.now.states.here self.now.port bytes.now) }
    {
        match self.states.here.forward(self.port, bytes) {
            Verdict::Forward { gem, .. } => Ending::Gem(gem),
            Verdict::Drop(reason) => Ending::Dropped(reason),
        }
    }

    /// The class of each frame that begins as these bytes do, by this version.
    fn class_by(&self, head: &[u8]) -> FrameClass
        requires { IsReady self.now }
        ensures { (bytes : List ℕ) → All (λ b. b < 2 ^ 8) bytes → IsHeadOf bytes head.now
            → result ≡ class_of (entities_in self.now self.now.version) self.now.port bytes }
    {
        FrameClass {
            used: EntryUses::use_at(&self.uses, head),
            ending: self.ending(head),
        }
    }

    /// The class of a frame by this version. The buffer takes its first bytes.
    pub(crate) fn class_of(
        &mut self,
        frame: &Digits<'_>,
        buffer: &mut [u8; MOST_SPELLED],
    ) -> FrameClass
        requires { IsReady self.old }
        ensures class { result ≡ class_of (entities_in self.old self.old.version) self.old.port frame.now }
        ensures ready { IsReady self.new }
        ensures kept { self.new ≡ record self.old { known = self.new.known } }
    {
        let head = read_head(frame.as_digits(), buffer);
        if let Some(class) = self.known.find(head) {
            return class;
        }
        let class = self.class_by(head);
        self.known.keep(head, class);
        class
    }

    /// The classes of the stretch.
    pub(crate) fn classes(&self, alloc: Global) -> Result<Vec<ClassExample>, AllocError>
        requires { IsReady self.now }
        ensures { IfOk result (λ list. AreClasses (entities_in self.now self.now.first) self.now.port self.now.least
            (examples_of list.items)) }
    {
        classes(alloc, self.states.here.mib(), self.port, self.least)
    }
}
