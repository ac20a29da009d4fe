//! Tests of the judge that no stored history asks: histories in pieces that are cut anywhere, judgements made by hand, every
//! deviation behind a script, and histories that this product's own lanes make. Rows and drawn histories are asked of the program (`tests/judged_plainly`).
#![tactic(auto)]

#[cfg(test)]
mod deviations_tests;
#[cfg(test)]
mod history_tests;
#[cfg(test)]
mod judgement_tests;
#[cfg(test)]
mod own_history;
#[cfg(test)]
mod own_lanes_tests;
#[cfg(test)]
mod shown;
