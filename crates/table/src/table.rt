// A table by value.
use ground::limits::MOST_STATIONS;
use pool::places::{MOST_PLACES, Place};
use station::station::Station;

// The count of its stations, an array of stations by number, and the pool. What stands at a number
// not below the count is no part of the table.
#[derive(Clone, Copy)]
pub struct Table {
    pub count: usize,
    pub stations: [Station; MOST_STATIONS],
    pub pool: [Place; MOST_PLACES],
}
