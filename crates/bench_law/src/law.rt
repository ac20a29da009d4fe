//! No right unit is accused.
ghost use Rattle.bench_law.specs.Law.{NoDeviationIsFound, NoDeviationIsListed, NoRightUnitIsAccused};

/// No right unit is accused: each history that an observer with one clock can see at the machine of
/// [`law_of_interleavings`](plan_publish::law_of_interleavings) is explained. So no judgement of it finds a deviation, and no list of
/// deviations has one.
///
/// This holds for every number of lanes, every order of the machine's events, every script that comes first, and wherever the observer's
/// lines may stand among the events. It holds for all settings that allow what the observation needs. More may be allowed than it needs, but
/// for repeats: a machine that carries out a message twice in a row may be accused where the second is taken for a repeat.
///
/// So where the judge finds a deviation, no course of the machine shows the history, with the lines where `specs/Observation.antt` lets
/// them stand.
pub fn law_of_right_units()
    ensures explained { NoRightUnitIsAccused }
    ensures found { NoDeviationIsFound }
    ensures listed { NoDeviationIsListed }
{}
