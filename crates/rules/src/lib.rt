// The five rules of receiving: slots, tokens, messages, what the rules see of a station and what
// they do to it, and what an add and a draw do to a stock of passes.
#![tactic(auto)]

mod half;
pub mod held;
pub mod message;
pub mod report;
pub mod rules;
pub mod side;
mod slot;
pub mod stock;
pub mod taking;
mod token;

pub use stock::{add_to, draw_from};
pub use taking::take;
