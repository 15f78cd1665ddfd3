// The message as bytes: one record, read and written, and one station on bytes.
#![tactic(auto)]

pub mod at_station;
mod dateless;
mod faults;
mod fields;
mod front;
mod held;
mod numbers;
mod putting;
mod reader;
pub mod reading;
mod walking;
pub mod writing;

pub use at_station::{receive_bytes, write_message};
pub use reading::read;
pub use writing::write;
