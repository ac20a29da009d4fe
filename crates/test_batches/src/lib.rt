//! Tests of versions from a control to its lanes, and of batches on lanes, a storm among them: plan_publish and frame_batch. They stand apart
//! so that no library is proved a second time with its tests.
#![tactic(auto)]

#[cfg(test)]
mod batch_tests;
#[cfg(test)]
mod dialogue;
#[cfg(test)]
mod lane_tests;
#[cfg(test)]
mod storm;
#[cfg(test)]
mod storm_tests;
