// A record read.
ghost use Rattle.std.specs.Prelude.{◌≡◌};
ghost use Rattle.record.specs.Reading.{read_of};

use crate::walking::walk;
use ground::answers::DONE;
use ground::refusal::Refusal;
use rules::message::{Message, no_message};

// The numbered answer, the record's length, and the message.
#[derive(Clone, Copy)]
pub struct Reading {
    pub answer: u8,
    pub result: u64,
    pub message: Message,
}

// Refused by 9 where the bytes are no record, whatever the fault.
#[tactic(auto, unfolding(crate::specs::Reading::read_of))]
pub fn read(bytes: &[u8]) -> Reading
    ensures { result ≡ read_of bytes.now }
{
    match walk(bytes) {
        Ok((message, end)) => Reading {
            answer: DONE,
            result: end as u64,
            message,
        },
        Err(_) => Reading {
            answer: Refusal::NoRecord.number(),
            result: 0,
            message: no_message(),
        },
    }
}
