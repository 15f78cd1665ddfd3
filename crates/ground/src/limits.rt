// The limits of document 01's numbers.
// A table has 2 to 16 stations.
pub const LEAST_STATIONS: usize = 2;

pub const MOST_STATIONS: usize = 16;

// An added or drawn amount is 1 to this.
pub const MOST_AMOUNT: u64 = 1000000000;

// All that a station ever added.
pub const MOST_INTAKE: u64 = 1000000000;

// A value or a quantity.
pub const MOST_VALUE: u64 = 16000000000;

// The end of a clock.
pub const LAST_CLOCK: u32 = 4294967295;
