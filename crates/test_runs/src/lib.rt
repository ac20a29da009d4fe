//! Tests of digits, replays, traces and scripts in words, of devices that fail, of counts, of runs on lanes, and of the words for one. They
//! stand apart so that no library is proved a second time with its tests.
#![tactic(auto)]

#[cfg(test)]
mod count_tests;
#[cfg(test)]
mod device_tests;
#[cfg(test)]
mod devices;
#[cfg(test)]
mod encode_tests;
#[cfg(test)]
mod gate_tests;
#[cfg(test)]
mod line_tests;
#[cfg(test)]
mod run_tests;
#[cfg(test)]
mod script_digits_tests;
#[cfg(test)]
mod script_trace_tests;
#[cfg(test)]
mod text_tests;
#[cfg(test)]
mod word_tests;
#[cfg(test)]
mod writing_tests;
