// What every family of stations stands on: the numbered answers with their results, why something
// is refused, the limits, the two clocks, and half of a difference.
#![tactic(auto)]

pub mod answers;
pub mod clocks;
pub mod half;
pub mod limits;
pub mod refusal;
pub mod told;
