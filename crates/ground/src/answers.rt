// The numbered answers.
pub const DONE: u8 = 0;
// The station lent is not sound, or a count is not 2 to 16.
pub const NOT_SOUND: u8 = 1;
// A station number, or the from or to of what is received, is not below the count.
pub const NOT_BELOW_COUNT: u8 = 2;
// Sender and receiver are the same.
pub const SAME_STATION: u8 = 3;
// An amount is 0 or above 1,000,000,000.
pub const BAD_AMOUNT: u8 = 4;
// The intake would pass its limit.
pub const INTAKE_LIMIT: u8 = 5;
// All 64 places are taken.
pub const POOL_FULL: u8 = 6;
// A place number is above 63.
pub const NO_SUCH_PLACE: u8 = 7;
// A place is empty.
pub const EMPTY_PLACE: u8 = 8;
// Bytes are no record, or a message is not sound.
pub const NO_RECORD: u8 = 9;
// An add, or a fill by rule 1, would bring a value above 16,000,000,000.
pub const VALUE_LIMIT: u8 = 10;
// What is received is for another station.
pub const FOR_ANOTHER: u8 = 11;
// A script line can't be read.
pub const BAD_LINE: u8 = 12;
// The script is longer than 65,536 bytes.
pub const LONG_SCRIPT: u8 = 13;
// The output buffer is shorter than the record.
pub const SHORT_BUFFER: u8 = 14;
// Fewer passes can be drawn than asked.
pub const TOO_FEW: u8 = 15;
