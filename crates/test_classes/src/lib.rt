//! Tests of the classes of a port, and of what configurations see otherwise: those of worked configurations, and those of drawn ones
//! beside drawn frames.
#![tactic(auto)]

#[cfg(test)]
mod changes_tests;
#[cfg(test)]
mod drawn_frame;
#[cfg(test)]
mod drawn_tests;
#[cfg(test)]
mod pair;
#[cfg(test)]
mod plainly;
#[cfg(test)]
mod provisioning;
#[cfg(test)]
mod sight;
#[cfg(test)]
mod sights_tests;
#[cfg(test)]
mod three;
#[cfg(test)]
mod worked_tests;
