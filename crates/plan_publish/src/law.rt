//! What holds of the control and its lanes, in whatever order their events come.
ghost use Rattle.plan_publish.specs.Interleavings.{
  RepliesFollow,
  TokensCount,
  VerdictsAreOfAPrefix,
  PrefixesGrow,
  PrefixesReachTokens,
  SeenIsGreatest,
};

/// The law of interleavings. The events of one control and its lanes are messages, publishes, a lane told a token, a lane that
/// enters, forwards a frame, or leaves. For every number of lanes, and every order of events in which each is possible where
/// it comes:
///
/// - each reply is the model's, from the state that all messages before it leave;
/// - the token of a publish is the number of requests accepted before it;
/// - each verdict is what the managed entities after the first n accepted requests mean for the frame, n being the number of
///   requests accepted before the last publish that precedes the lane's last enter, and 0 without such a publish;
/// - for a lane n never falls;
/// - where a lane forwards, n is at least each token that it was told before;
/// - the number that a lane has seen is the greatest of n and these tokens.
///
/// It speaks of definitions, not of threads: a call that answers a fault, and an `enter` that answers None, is no event. It
/// says nothing of when a lane enters, nor of any order between lanes.
pub fn law_of_interleavings()
    ensures replies { RepliesFollow }
    ensures tokens { TokensCount }
    ensures verdicts { VerdictsAreOfAPrefix }
    ensures prefixes { PrefixesGrow }
    ensures told { PrefixesReachTokens }
    ensures seen { SeenIsGreatest }
{}
