//! What holds of every explanation.
ghost use Rattle.explain.specs.Order.{IsTriedInOrder};
ghost use Rattle.explain.specs.Mismatch.{MatchesWithoutMismatch};
ghost use Rattle.explain.specs.Outgoing.{HasTrueOrigins};
ghost use Rattle.explain.specs.Priority.{HasTruePriority};
ghost use Rattle.explain.specs.Steps.{TellsTheUsed};

/// Each step tells the truth: the entry that is used is the first that matches in the order in which entries are tried, an entry
/// fails by a field exactly where it doesn't match, the entry that is told to be used is used, each tag that a frame leaves with
/// is what its origin says, and so is its priority.
pub fn law_of_steps()
    ensures order { IsTriedInOrder }
    ensures mismatch { MatchesWithoutMismatch }
    ensures used { TellsTheUsed }
    ensures tags { HasTrueOrigins }
    ensures priority { HasTruePriority }
{}
