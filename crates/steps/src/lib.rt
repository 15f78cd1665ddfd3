// The steps that drive a table, one at a time or as a run of them.
#![tactic(auto)]

pub mod asked;
mod looking;
pub mod planning;
pub mod running;
pub mod stepping;
mod taken;

pub use asked::{asked_by, numbers_for};
pub use running::run;
pub use stepping::step;
