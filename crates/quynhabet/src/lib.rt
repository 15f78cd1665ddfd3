// The proved library for callers in C and Rust: a station is 134 numbers, a message is 13, and no
// call has a condition.
#![tactic(auto)]

pub mod exports;
mod fours;
mod messages;
mod stations;
pub mod told;
