//! What holds of the definitions that the contracts cite.
ghost use Rattle.frame_expectation.specs.Check.{OutcomesExclude};

/// An expectation that holds isn't void, and no frame fails it; and none fails one that is void.
pub fn law_of_outcomes()
    ensures { OutcomesExclude }
{}
