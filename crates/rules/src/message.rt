// What one station shows another.
ghost use Rattle.std.specs.Prelude.{◌≡◌};
ghost use Rattle.rules.specs.Message.{no_message};

use crate::held::{Slot, Token};
use ground::clocks::{DestinationClock, SourceClock};

#[derive(Clone, Copy)]
pub struct Message {
    pub from: usize,
    pub to: usize,
    pub value: u64,
    pub source: SourceClock,
    pub destination: DestinationClock,
    pub slot: Option<Slot>,
    pub token: Option<Token>,
}

// Every number 0 and nothing held.
pub fn no_message() -> Message
    ensures { result ≡ no_message }
{
    Message {
        from: 0,
        to: 0,
        value: 0,
        source: SourceClock(0),
        destination: DestinationClock(0),
        slot: None,
        token: None,
    }
}
