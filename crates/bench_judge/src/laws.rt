//! Laws of explained histories.
ghost use Rattle.bench_judge.specs.Laws.{FrontsAreExplained, LeastAreAChoice};

/// If a history is explained, so are its events up to each line. So where one isn't explained there is a first line up to which it isn't.
pub fn law_of_fronts()
    ensures { FrontsAreExplained }
{}

/// The least versions that the ended frames of a history have, each in any choice, are a choice together.
pub fn law_of_least_versions()
    ensures { LeastAreAChoice }
{}
