// What of a station the five rules see when it takes a message: its value, its clocks, and what it
// holds for the sender.
use crate::held::{Slot, Token};
use ground::clocks::{DestinationClock, SourceClock};

#[derive(Clone, Copy)]
pub struct Side {
    pub value: u64,
    pub source: SourceClock,
    pub destination: DestinationClock,
    pub slot: Option<Slot>,
    pub token: Option<Token>,
}
