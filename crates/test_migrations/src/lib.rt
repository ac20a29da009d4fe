//! Tests of changes without a hit: worked ones of port 257.
#![tactic(auto)]

#[cfg(test)]
mod worked_tests;
