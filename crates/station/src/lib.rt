// One station: what it holds, when it is sound, and its entry points.
#![tactic(auto)]

pub mod held;
pub mod message;
pub mod outcome;
pub mod receiving;
mod side;
pub mod sound;
pub mod station;
pub mod steps;

pub use message::message_for;
pub use receiving::receive;
pub use steps::{add, draw, fresh};
