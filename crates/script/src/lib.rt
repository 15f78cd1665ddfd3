// A script of steps: its lines read, what each did printed, all on lent bytes.
#![tactic(auto)]

mod closing;
mod limits;
mod lines;
mod printing;
pub mod putting;
mod reading;
pub mod starting;
mod telling;
mod words;

pub use putting::put_lines;
pub use starting::{put_answer, start};
