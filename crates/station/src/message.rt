// The message that one station has for another.
ghost use Rattle.std.specs.Prelude.{◌≡◌, ◌<◌};
ghost use Rattle.ground.specs.Limits.{most_stations};
ghost use Rattle.ground.specs.Tested.{tested};
ghost use Rattle.station.specs.Steps.{message_for, show_answer, show_of};

use crate::side::side_for;
use crate::sound::station_is_sound;
use crate::station::Station;
use ground::answers::DONE;
use ground::refusal::Refusal;
use rules::message::{Message, no_message};

// The numbered answer, and the message that a station has for another.
#[derive(Clone, Copy)]
pub struct Shown {
    pub answer: u8,
    pub message: Message,
}

fn test_show(s: Station, to: u64) -> Result<(), Refusal>
    ensures { tested result ≡ show_answer s to }
{
    if !station_is_sound(s) {
        return Err(Refusal::NotSound);
    }
    if s.count as u64 <= to {
        return Err(Refusal::NotBelowCount);
    }
    if to == s.number as u64 {
        return Err(Refusal::SameStation);
    }
    Ok(())
}

// What a station shows station k of its table.
fn shown_to(s: Station, k: usize) -> Message
    requires { k < most_stations }
    ensures { result ≡ message_for s k }
{
    let x = side_for(s, k);
    Message {
        from: s.number,
        to: k,
        value: x.value,
        source: x.source,
        destination: x.destination,
        slot: x.slot,
        token: x.token,
    }
}

// The message that a station has for another: refused by 1, 2, 3.
#[tactic(auto, using(ground::proofs::Tested::not_done), unfolding(crate::specs::Steps::show_of))]
pub fn message_for(s: Station, to: u64) -> Shown
    ensures { result ≡ show_of s to }
{
    match test_show(s, to) {
        Err(refusal) => Shown {
            answer: refusal.number(),
            message: no_message(),
        },
        Ok(()) => Shown {
            answer: DONE,
            message: shown_to(s, to as usize),
        },
    }
}
