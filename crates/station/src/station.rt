// A station by value.
use crate::held::PeerCell;
use ground::clocks::{DestinationClock, SourceClock};
use ground::limits::MOST_STATIONS;
use rules::held::{Slot, Token};

// Its own number and the count of stations, its value, its intake, its two clocks, and for every
// peer at most one slot and at most one token.
#[derive(Clone, Copy)]
pub struct Station {
    pub number: usize,
    pub count: usize,
    pub value: u64,
    pub intake: u64,
    pub source: SourceClock,
    pub destination: DestinationClock,
    pub slots: [PeerCell<Slot>; MOST_STATIONS],
    pub tokens: [PeerCell<Token>; MOST_STATIONS],
}
