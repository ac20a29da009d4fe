//! Tests of captures: files in the classic format, in memory and in parts, blocks of the pcapng format one by one, and readers and writers
//! that fail. Files by hand and drawn ones are asked of the program (`tests/made_captures`).
#![tactic(auto)]

#[cfg(test)]
mod block_tests;
#[cfg(test)]
mod capture_tests;
#[cfg(test)]
mod drip;
#[cfg(test)]
mod reader_tests;
#[cfg(test)]
mod wild_captures;
#[cfg(test)]
mod writer_tests;
