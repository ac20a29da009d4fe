//! Tests of messages and frames as they are read, of tables with their indices, of entities with their steps and uploads, and of plans. They
//! stand apart so that no library is proved a second time with its tests.
#![tactic(auto)]

#[cfg(test)]
mod agree_tests;
#[cfg(test)]
mod entity_tests;
#[cfg(test)]
mod frame_tests;
#[cfg(test)]
mod index_tests;
#[cfg(test)]
mod message_tests;
#[cfg(test)]
mod number_tests;
#[cfg(test)]
mod plan_tests;
#[cfg(test)]
mod table_tests;
