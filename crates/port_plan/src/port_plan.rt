//! The plan of one port, and its frames.
ghost use Rattle.std.specs.Prelude.{◌≡◌, ◌<◌, ◌≤◌, ◌+◌, ◌*◌, [], ◌∷◌, ◌++◌, ℕ, List, Option, Some, map, take, drop, IfOk, IfErr, Ok, Err, length, slice_get, vec_len, vec_capacity};
ghost use Rattle.std.specs.Borrow.{Bor};
ghost use Rattle.tag_view.specs.Tag.{TagFields};
ghost use Rattle.tag_view.specs.Word.{tag_of};
ghost use Rattle.tag_view.specs.Frame.{Reading, type_at, with_tags};
ghost use Rattle.tag_view.specs.Dscp.{dscp_of};
ghost use Rattle.rule_index.specs.Head.{head_of};
ghost use Rattle.frame_meaning.specs.declared.verdict.Verdict.TheVariants.{Drop, Forward};
ghost use Rattle.mib_state.specs.Entities.{Entities};
ghost use Rattle.frame_meaning.specs.Meaning.{gem_port_at, mapper_at, meaning, table_at, tags_at};
ghost use Rattle.port_plan.specs.Plan.{untagged_priority};
ghost use Rattle.frame_meaning.specs.Size.{LeavesLittleMore};
ghost use Rattle.port_plan.specs.Leaving.{HasHead, IsForeseen, IsFrameOf, IsHeadOf, IsPlaceFor, IsPlanOf, leaves_by, outcome_of, priority_made, tags_made, words_made};

use crate::compiled_table::CompiledTable;
use crate::dscp::place_of_dscp;
use crate::routes::Routes;
use frame_meaning::{OutFrame, Reason, Verdict};
use rule_index::Head;
use tag_view::Tag;
use treatment::Treat;

/// What is compiled for the frames that come in at one port, lent: its table and its mapper's routes. Who has many frames of a
/// port looks it up once.
#[derive(Clone, Copy)]
pub struct PortPlan<'p> {
    table: &'p CompiledTable,
    routes: &'p Routes,
}

/// What the tags of a frame are made of when it leaves.
#[derive(Clone, Copy)]
struct Tagging<'p> {
    treat: &'p Treat,
    // The words of the first and the last received tag.
    first: u32,
    last: u32,
    // The priority that the table has for the DSCP.
    marking: u8,
}

impl<'p> Tagging<'p> {
    /// How many tags it leaves with.
    #[inline(always)]
    fn count(&self) -> usize
        ensures value { result ≡ self.now.treat.now.count }
        ensures four { result ≤ 4 }
    {
        self.treat.count()
    }

    /// The words of its tags, and of no meaning behind them.
    #[inline(always)]
    fn words(&self) -> [u32; 4]
        ensures value { result ≡ words_made self.now }
        ensures four { length (words_made self.now) ≡ 4 }
    {
        self.treat.words(self.first, self.last, self.marking)
    }
}

impl<'p> PortPlan<'p> {
    /// The plan of a table and a mapper's routes.
    #[inline(always)]
    pub fn new(table: &'p CompiledTable, routes: &'p Routes) -> Self
        ensures table { result.table.now ≡ table.now }
        ensures routes { result.routes.now ≡ routes.now }
    {
        PortPlan { table, routes }
    }

    /// The place of a frame's DSCP, where table or mapper asks for it.
    #[inline(always)]
    fn dscp_place(&self, head: &Head, rest: &[u8]) -> usize
        requires ethertype { head.now.type ≡ type_at 0 rest.now }
        requires whole { 2 ≤ length rest.now }
        ensures place { IsPlaceFor self.now (dscp_of rest.now) result }
        ensures bound { result < 65 }
    {
        if self.table.uses_dscp() | self.routes.uses_dscp() {
            place_of_dscp(rest, head.ethertype())
        } else {
            64
        }
    }

    /// What the tags of a frame with this head are made of, or why the table drops it.
    #[inline(always)]
    fn tagging(&self, head: &Head, place: usize) -> Result<Tagging<'p>, Reason>
        requires { place < 65 }
        ensures tags { IfOk result (λ tagging. (e : Entities) (port : ℕ) (frame : Reading)
            → IsPlanOf e port self.now → HasHead head.now frame
            → IsPlaceFor self.now (dscp_of frame.rest) place
            → tags_at (table_at e port) frame ≡ Ok (tags_made tagging)) }
        ensures reason { IfErr result (λ reason. (e : Entities) (port : ℕ) (frame : Reading)
            → IsPlanOf e port self.now → HasHead head.now frame
            → tags_at (table_at e port) frame ≡ Err reason) }
    {
        match self.table.treat(head) {
            Ok(treat) => Ok(Tagging {
                treat,
                first: head.outer(),
                last: head.inner(),
                marking: self.table.marking(place),
            }),
            Err(reason) => Err(reason),
        }
    }

    /// The priority of a frame with these tags.
    #[inline(always)]
    fn priority(&self, tagging: &Tagging, place: usize) -> u8
        requires { place < 65 }
        ensures value { (e : Entities) (port : ℕ) (dscp : Option ℕ)
            → IsPlanOf e port self.now → IsPlaceFor self.now dscp place
            → result
            ≡ priority_made (mapper_at e port) dscp tagging.now.treat.now.count
            (words_made tagging.now) }
        ensures bound { result < 8 }
        ensures four { length (words_made tagging.now) ≡ 4 }
    {
        let untagged = self.routes.untagged(place);
        let outermost = Tag::of_word(tagging.words()[0]).pcp();
        if tagging.count() == 0 {
            untagged
        } else {
            outermost
        }
    }

    /// The GEM port of a frame with these tags, or the reason that there is none.
    #[inline(always)]
    fn route(&self, tagging: &Tagging, place: usize) -> Result<u16, Reason>
        requires { place < 65 }
        ensures gem { (e : Entities) (port : ℕ) (dscp : Option ℕ)
            → IsPlanOf e port self.now → IsPlaceFor self.now dscp place
            → result ≡ gem_port_at e port (tags_made tagging.now) dscp }
        ensures four { length (words_made tagging.now) ≡ 4 }
    {
        self.routes.route(self.priority(tagging, place))
    }

    /// The GEM port of a frame that was read, and what its tags are made of, or why it is dropped.
    #[inline(always)]
    fn decide(&self, head: &Head, rest: &[u8]) -> Result<(u16, Tagging<'p>), Reason>
        requires ethertype { head.now.type ≡ type_at 0 rest.now }
        requires whole { 2 ≤ length rest.now }
        ensures leaves { IfOk result (λ decided. (e : Entities) (port : ℕ) (frame : Reading)
            → IsPlanOf e port self.now → IsFrameOf head.now rest.now frame
            → leaves_by e port frame ≡ Ok (decided.0, tags_made decided.1)) }
        ensures dropped { IfErr result (λ reason. (e : Entities) (port : ℕ) (frame : Reading)
            → IsPlanOf e port self.now → IsFrameOf head.now rest.now frame
            → leaves_by e port frame ≡ Err reason) }
        ensures four { IfOk result (λ decided. length (words_made decided.1) ≡ 4) }
    {
        let place = self.dscp_place(head, rest);
        match self.tagging(head, place) {
            Ok(tagging) => match self.route(&tagging, place) {
                Ok(gem) => Ok((gem, tagging)),
                Err(reason) => Err(reason),
            },
            Err(reason) => Err(reason),
        }
    }

    /// The head of a frame, or why it is dropped unread.
    #[inline(always)]
    fn read(&self, bytes: &[u8]) -> Result<Head, Reason>
        ensures head { IfOk result (λ head. IsHeadOf self.now bytes.now head) }
        ensures dropped { IfErr result (λ reason. (e : Entities) (port : ℕ)
            → IsPlanOf e port self.now → Drop reason ≡ meaning e port bytes.now) }
    {
        match Head::read(bytes, self.table.input_tpid()) {
            Ok(head) => Ok(head),
            Err(fault) => Err(Reason::from(fault)),
        }
    }

    /// Appends the verdict on a frame with this head.
    #[inline(always)]
    fn push_read<'a>(
        &self,
        head: &Head,
        received: u8,
        bytes: &'a [u8],
        verdicts: &mut Vec<Verdict<'a>>,
    )
        requires head { IsHeadOf self.now bytes.now head.now }
        requires received { received ≡ length head.now.tags }
        requires free { vec_len verdicts.old < vec_capacity verdicts.old }
        ensures verdict { (e : Entities) (port : ℕ) → IsPlanOf e port self.now
            → verdicts.new.items ≡ verdicts.old.items ++ meaning e port bytes.now ∷ [] }
        ensures one { vec_len verdicts.new ≡ vec_len verdicts.old + 1 }
        ensures room { vec_capacity verdicts.new ≡ vec_capacity verdicts.old }
    {
        match self.decide(head, behind_tags(bytes, received)) {
            Ok((gem, tagging)) if tagging.count() > 2 => {
                push_many_tags(gem, &tagging, received, bytes, verdicts)
            }
            Ok((gem, tagging)) => verdicts.push_reserved(Verdict::Forward {
                gem,
                frame: OutFrame::of_two_words(bytes, received, tagging.words(), tagging.count()),
            }),
            Err(reason) => verdicts.push_reserved(Verdict::Drop(reason)),
        }
    }

    /// The verdict on a frame with this head.
    #[inline(always)]
    fn verdict<'a>(&self, head: &Head, received: u8, bytes: &'a [u8]) -> Verdict<'a>
        requires head { IsHeadOf self.now bytes.now head.now }
        requires received { received ≡ length head.now.tags }
        ensures verdict { (e : Entities) (port : ℕ) → IsPlanOf e port self.now
            → result ≡ meaning e port bytes.now }
        ensures size { LeavesLittleMore bytes.now result }
    {
        match self.decide(head, behind_tags(bytes, received)) {
            Ok((gem, tagging)) => Verdict::Forward {
                gem,
                frame: OutFrame::of_words(bytes, received, tagging.words(), tagging.count()),
            },
            Err(reason) => Verdict::Drop(reason),
        }
    }

    /// What becomes of a frame. It takes no memory, and the verdict borrows the frame alone.
    #[inline(always)]
    pub fn forward<'a>(&self, bytes: &'a [u8]) -> Verdict<'a>
        ensures verdict { (e : Entities) (port : ℕ) → IsPlanOf e port self.now
            → result ≡ meaning e port bytes.now }
        ensures size { LeavesLittleMore bytes.now result }
    {
        match self.read(bytes) {
            Ok(head) => match head.tags() {
                0 => self.verdict(&head, 0, bytes),
                1 => self.verdict(&head, 1, bytes),
                _ => self.verdict(&head, 2, bytes),
            },
            Err(reason) => Verdict::Drop(reason),
        }
    }

    /// The GEM port by which a frame with this head leaves and how many bytes it has then, or why it is dropped.
    #[inline(always)]
    fn outcome_read(&self, head: &Head, received: u8, bytes: &[u8]) -> Result<(u16, usize), Reason>
        requires head { IsHeadOf self.now bytes.now head.now }
        requires received { received ≡ length head.now.tags }
        ensures { (e : Entities) (port : ℕ) → IsPlanOf e port self.now
            → result ≡ outcome_of (meaning e port bytes.now) }
    {
        match self.decide(head, behind_tags(bytes, received)) {
            Ok((gem, tagging)) => Ok((
                gem,
                bytes.len() - 4 * usize::from(received) + 4 * tagging.count(),
            )),
            Err(reason) => Err(reason),
        }
    }

    /// What comes of a frame: the GEM port by which it leaves and how many bytes it has then, or why it is dropped. Its tags aren't
    /// made, so this is faster than [`forward`](PortPlan::forward).
    #[inline(always)]
    pub fn outcome(&self, bytes: &[u8]) -> Result<(u16, usize), Reason>
        ensures { (e : Entities) (port : ℕ) → IsPlanOf e port self.now
            → result ≡ outcome_of (meaning e port bytes.now) }
    {
        match self.read(bytes) {
            Ok(head) => match head.tags() {
                0 => self.outcome_read(&head, 0, bytes),
                1 => self.outcome_read(&head, 1, bytes),
                _ => self.outcome_read(&head, 2, bytes),
            },
            Err(reason) => Err(reason),
        }
    }

    /// How many tags the first of some frames has, or 128 where that isn't known so early or there is none.
    #[inline(always)]
    fn tags_ahead(&self, input_tpid: u16, frames: &[&[u8]]) -> u8
        requires { input_tpid ≡ self.now.table.now.table.settings.input_tpid }
        ensures foreseen { (frame : Bor (List ℕ)) → slice_get frames.now 0 ≡ Some frame
            → IsForeseen self.now frame.now result }
    {
        match frames.first() {
            Some(frame) => Head::tags_ahead(frame, input_tpid),
            None => 128,
        }
    }

    /// Appends the verdict on a frame that has so many tags, or on any where that isn't known.
    #[inline(always)]
    fn push_foreseen<'a>(&self, bytes: &'a [u8], tags: u8, verdicts: &mut Vec<Verdict<'a>>)
        requires foreseen { IsForeseen self.now bytes.now tags }
        requires free { vec_len verdicts.old < vec_capacity verdicts.old }
        ensures verdict { (e : Entities) (port : ℕ) → IsPlanOf e port self.now
            → verdicts.new.items ≡ verdicts.old.items ++ meaning e port bytes.now ∷ [] }
        ensures one { vec_len verdicts.new ≡ vec_len verdicts.old + 1 }
        ensures room { vec_capacity verdicts.new ≡ vec_capacity verdicts.old }
    {
        match tags {
            // Each number of tags is a path of its own.
            0 => self.push_read(&Head::of_tags(bytes, 0), 0, bytes, verdicts),
            1 => self.push_read(&Head::of_tags(bytes, 1), 1, bytes, verdicts),
            2 => self.push_read(&Head::of_tags(bytes, 2), 2, bytes, verdicts),
            _ => self.push_apart(bytes, verdicts),
        }
    }

    /// Appends the verdict on a short frame. It stands apart, so that the other frames don't wait for it.
    #[cold]
    #[inline(never)]
    fn push_apart<'a>(&self, bytes: &'a [u8], verdicts: &mut Vec<Verdict<'a>>)
        requires free { vec_len verdicts.old < vec_capacity verdicts.old }
        ensures verdict { (e : Entities) (port : ℕ) → IsPlanOf e port self.now
            → verdicts.new.items ≡ verdicts.old.items ++ meaning e port bytes.now ∷ [] }
        ensures one { vec_len verdicts.new ≡ vec_len verdicts.old + 1 }
        ensures room { vec_capacity verdicts.new ≡ vec_capacity verdicts.old }
    {
        self.push(bytes, verdicts);
    }

    /// Appends what becomes of each frame, in order, to verdicts that there is room for. It takes no memory, and the verdicts
    /// borrow the frames alone. This is the fast way to forward many frames: each verdict is written where it is to lie, by one
    /// loop into which all that a frame goes through is put, whoever calls it. The number of a frame's tags is found while the frame
    /// before it is forwarded, so a processor that guesses wrong which way a frame goes knows it at once.
    #[inline(never)]
    pub fn push_all<'a>(&self, frames: &[&'a [u8]], verdicts: &mut Vec<Verdict<'a>>)
        requires { vec_len verdicts.old + length frames.now ≤ vec_capacity verdicts.old }
        ensures verdicts { (e : Entities) (port : ℕ) → IsPlanOf e port self.now
            → verdicts.new.items
            ≡ verdicts.old.items ++ map (λ frame. meaning e port frame.now) frames.now }
        ensures room { vec_capacity verdicts.new ≡ vec_capacity verdicts.old }
    {
        // Lent once, and not looked up for each frame.
        let plan = *self;
        let input_tpid = plan.table.input_tpid();
        let mut tags = plan.tags_ahead(input_tpid, frames);
        let mut left = frames;
        while let [frame, behind @ ..] = left {
            let next = plan.tags_ahead(input_tpid, behind);
            plan.push_foreseen(frame, tags, verdicts);
            tags = next;
            left = behind;
        }
    }

    /// Appends what becomes of a frame to verdicts that there is room for. It takes no memory, and the verdict borrows the
    /// frame alone. Where it is called for many frames, [`push_all`](PortPlan::push_all) is faster.
    #[inline(always)]
    pub fn push<'a>(&self, bytes: &'a [u8], verdicts: &mut Vec<Verdict<'a>>)
        requires { vec_len verdicts.old < vec_capacity verdicts.old }
        ensures verdict { (e : Entities) (port : ℕ) → IsPlanOf e port self.now
            → verdicts.new.items ≡ verdicts.old.items ++ meaning e port bytes.now ∷ [] }
        ensures one { vec_len verdicts.new ≡ vec_len verdicts.old + 1 }
        ensures room { vec_capacity verdicts.new ≡ vec_capacity verdicts.old }
    {
        match self.read(bytes) {
            // Each number of tags is a path of its own.
            Ok(head) => match head.tags() {
                0 => self.push_read(&head, 0, bytes, verdicts),
                1 => self.push_read(&head, 1, bytes, verdicts),
                _ => self.push_read(&head, 2, bytes, verdicts),
            },
            Err(reason) => verdicts.push_reserved(Verdict::Drop(reason)),
        }
    }
}

/// What follows the addresses and so many tags.
#[inline(always)]
fn behind_tags(bytes: &[u8], received: u8) -> &[u8]
    requires { 14 + 4 * received ≤ length bytes.now }
    ensures { result.now ≡ drop (12 + 4 * received) bytes.now }
{
    &bytes[12 + 4 * usize::from(received)..]
}

/// Appends the verdict on a frame that leaves with three or four tags. It stands apart, so that the other frames don't wait
/// for it.
#[cold]
#[inline(never)]
fn push_many_tags<'a>(
    gem: u16,
    tagging: &Tagging<'_>,
    received: u8,
    bytes: &'a [u8],
    verdicts: &mut Vec<Verdict<'a>>,
)
    requires whole { 14 + 4 * received ≤ length bytes.now }
    requires free { vec_len verdicts.old < vec_capacity verdicts.old }
    ensures verdict { verdicts.new.items ≡ verdicts.old.items
        ++ Forward gem (with_tags bytes.now received (tags_made tagging.now)) ∷ [] }
    ensures one { vec_len verdicts.new ≡ vec_len verdicts.old + 1 }
    ensures room { vec_capacity verdicts.new ≡ vec_capacity verdicts.old }
{
    verdicts.push_reserved(Verdict::Forward {
        gem,
        frame: OutFrame::of_words(bytes, received, tagging.words(), tagging.count()),
    });
}
