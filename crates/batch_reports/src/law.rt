//! What holds whatever the order in which reports come.
ghost use Rattle.batch_reports.specs.Gathering.{SameInEveryOrder, GatheredOnce};
ghost use Rattle.batch_reports.specs.Misfit.{ReportsMisfit, TalliesMisfit};

/// The law of arrival: every order of the same reports gathers to the same list. What is gathered from reports in one order is so
/// from every other, and nothing else is.
pub fn law_of_arrival()
    ensures every_order { SameInEveryOrder }
    ensures once { GatheredOnce }
{}

/// The law of misfits: where reports, or tallies, can't be put in order, the fault names the number of the first of them in the list
/// that is too great or was there before, each earlier one having a place of its own; or, where there is neither, the least number
/// that none has.
pub fn law_of_misfits()
    ensures reports { ReportsMisfit }
    ensures tallies { TalliesMisfit }
{}
