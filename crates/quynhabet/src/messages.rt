// A message as 13 numbers.
ghost use Rattle.std.specs.Prelude.{◌≡◌, cond};
ghost use Rattle.quynhabet.specs.Layout.{message_of, message_fits, message_numbers};

use crate::fours::{cell_of, clock_of, four_at, four_of};
use ground::clocks::{DestinationClock, SourceClock};
use rules::message::Message;

// The message that the numbers are, where they are one.
#[tactic(auto, unfolding(crate::specs::Layout::message_fits, crate::specs::Layout::message_of))]
pub(crate) fn message_of(numbers: &[u64; 13]) -> Option<Message>
    ensures { result ≡ cond (message_fits numbers.now) (Some (message_of numbers.now)) None }
{
    Some(Message {
        from: numbers[0] as usize,
        to: numbers[1] as usize,
        value: numbers[2],
        source: SourceClock(clock_of(numbers[3])?),
        destination: DestinationClock(clock_of(numbers[4])?),
        slot: cell_of(four_at(numbers, 5))?.held,
        token: cell_of(four_at(numbers, 9))?.held,
    })
}

#[tactic(auto, unfolding(crate::specs::Layout::message_numbers))]
pub(crate) fn message_numbers(m: Message) -> [u64; 13]
    ensures { result ≡ message_numbers m }
{
    let slot = four_of(m.slot);
    let token = four_of(m.token);
    [
        m.from as u64,
        m.to as u64,
        m.value,
        m.source.0 as u64,
        m.destination.0 as u64,
        slot.present,
        slot.source,
        slot.destination,
        slot.quantity,
        token.present,
        token.source,
        token.destination,
        token.quantity,
    ]
}
