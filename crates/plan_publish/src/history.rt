//! The history of all accepted requests, and its prefixes. It exists in contracts alone; what is stored of a prefix is how
//! many requests it has and the newest of them.
ghost use Rattle.std.specs.Prelude.{◌≡◌, ◌<◌, ◌≤◌, ◌++◌, ◌∷◌, [], ◌^◌, length, nat_le, None, MatchBool};
ghost use Rattle.plan_publish.specs.Requests.{StartsWith, last_of};
ghost use Rattle.plan_publish.specs.History.{head_of};

use logbook::{Gain, Offer, Plain, Play, Rule, Seen, Start, Word};
use omci_msg::Request;

/// The most requests that a prefix can have.
const MOST: u64 = 1 << 62;

/// The rule of the history.
pub struct Recorded;

impl Rule<Request, u64> for Recorded {
    ghost use Rattle.std.specs.Prelude.{[]};
    ghost use base.Fml.{ftrue};
    ghost use Rattle.plan_publish.specs.History.{IsKept};

    ghost holds = { λ cells log. IsKept cells log };

    ghost first = { [] };

    ghost hinted = { λ n log. Unit {0} };

    ghost shows = { λ log. [] };

    ghost keeps = { λ names log. ftrue };

    ghost moves = { λ ask before after answer. Unit {0} };
}

/// Nobody trades anything for a request.
pub(crate) struct Nothing;

impl Gain<Request, u64> for Nothing {
    ghost use base.Fml.{ftrue};

    ghost after = { λ names about answer. ftrue };
}

/// A step that adds a request.
pub(crate) struct Adds;

impl Play<Request, u64> for Adds {
    ghost use Rattle.plan_publish.specs.History.{Extends};

    ghost then = { Extends };
}

impl Plain<Request, Request, u64> for Adds {
    ghost use Rattle.std.specs.Prelude.{None};

    ghost ask = { λ q. q };

    ghost state = { λ q. None };
}

/// The word of a history: how many requests it has.
pub(crate) type Head = Word<Request, u64, Recorded>;

/// A prefix of the history.
#[derive(Drop)]
pub struct Prefix {
    len: u64,
    newest: Option<Request>,
    seen: Seen<Request, u64, Recorded>,
    ghost counted: { len ≡ length seen.log },
    ghost small: { len ≤ 2 ^ 62 },
    ghost ends: { newest ≡ last_of seen.log },
}

/// A new history, and its empty prefix.
pub(crate) fn new_history() -> (Head, Prefix)
    ensures { (result.1.seen.log ≡ []) × (result.0 ≡ head_of result.1.seen.book) }
{
    let (seen, mut first, _second) = Seen::open(Start::alone(), 0, 0);
    (
        Word::tracked(0, &mut first),
        Prefix {
            len: 0,
            newest: None,
            seen,
        },
    )
}

impl Prefix {
    pub(crate) fn len(&self) -> u64
        ensures { (result ≡ self.now.len) × (result ≡ length self.now.seen.log)
            × (result ≤ 2 ^ 62) }
    {
        self.len
    }

    pub(crate) fn newest(&self) -> Option<Request>
        ensures { (result ≡ self.now.newest) × (result ≡ last_of self.now.seen.log) }
    {
        self.newest
    }

    pub(crate) fn again(&self) -> Prefix
        ensures { result ≡ self.now }
    {
        Prefix {
            len: self.len,
            newest: self.newest,
            seen: self.seen.again(),
        }
    }

    /// Whether it is no longer than another one of the same history, which then begins with it.
    pub(crate) fn begins(&self, other: &Prefix) -> bool
        requires { other.now.seen.book ≡ self.now.seen.book }
        ensures value { result ≡ nat_le self.now.len other.now.len }
        ensures lists { MatchBool result
            ((length self.now.seen.log ≤ length other.now.seen.log)
            × StartsWith other.now.seen.log self.now.seen.log)
            ((length other.now.seen.log < length self.now.seen.log)
            × StartsWith self.now.seen.log other.now.seen.log) }
    {
        let mut both = self.seen.again();
        both.learn(&other.seen);
        if self.len <= other.len {
            return true;
        }
        false
    }

    /// Adds a request to the whole history, and says whether it did. It didn't where the history is longer, and is then the same.
    pub(crate) fn add(&mut self, head: &Head, request: &Request) -> bool
        requires { head.now ≡ head_of self.old.seen.book }
        ensures book { self.new.seen.book ≡ self.old.seen.book }
        ensures log { MatchBool result
            (self.new.seen.log ≡ self.old.seen.log ++ request.now ∷ [])
            (self.new.seen.log ≡ self.old.seen.log) }
    {
        let len = self.len;
        if len >= MOST {
            return false;
        }
        let mut seen = self.seen.again();
        let mut offer: Offer<Request, u64, Recorded, Nothing> = seen.plain::<
            Nothing,
            Request,
            Adds,
        >(request);
        let mut pen = seen.no_pen();
        let found = head.compare_exchange::<Adds, Nothing>(
            len,
            len + 1,
            &mut seen,
            &mut offer,
            &mut pen,
        );
        if found != len {
            return false;
        }
        *self = Prefix {
            len: len + 1,
            newest: Some(*request),
            seen,
        };
        true
    }
}
