//! Exact counts of the verdicts on frames, and a book of them with a part for each lane.
//!
//! **The figures** are one definition, `specs/Figures.antt`: of a list of verdicts its length, the bytes that leave, and how many
//! verdicts are a drop for each reason and leave by each GEM port. [`count_of`] gives all of them. Every claim about counts is
//! made figure by figure, where a GEM port that is absent counts 0.
//!
//! **A count per port costs little.** The frames of a port gather in one of 16 places, which its number chooses, and go to a map only
//! where another port takes that place. So the counts of a batch mostly take no memory. [`Counts::recount`] leaves the ports at their
//! places for the next list of verdicts.
//!
//! **A book** keeps a part for each lane and their total. Its type says that the total is the sum of the parts, so whoever holds
//! the lock round it finds it so. An addition is made aside and then put in place, so a refused one changes nothing.
#![tactic(auto)]

mod book;
mod count;
mod counts;
mod fault;
mod port_counts;
mod ports;
mod run;
mod sums;

pub use book::StatBook;
pub use count::count_of;
pub use counts::Counts;
pub use fault::{CountFault, StatFault};
pub use port_counts::{GEM_PORTS, PortCounts};
pub use sums::counts_sum;
