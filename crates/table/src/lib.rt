// A whole table of stations with the messages waiting between them.
#![tactic(auto)]

pub mod fresh;
pub mod sound;
pub mod stepped;
pub mod table;
pub mod way;

pub use fresh::fresh_table;
pub use way::{at_stations, on_the_way};
