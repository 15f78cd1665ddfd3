// A station receives a message by value.
ghost use Rattle.std.specs.Prelude.{◌≡◌};
ghost use Rattle.ground.specs.Answers.{done};
ghost use Rattle.ground.specs.Tested.{tested};
ghost use Rattle.station.specs.Steps.{meet_answer, receive_of};

use crate::outcome::{Outcome, refuse};
use crate::side::{put_side, side_for};
use crate::sound::{message_is_sound, station_is_sound};
use crate::station::Station;
use ground::answers::DONE;
use ground::refusal::Refusal;
use rules::message::Message;
use rules::taking::take;

// What is tested before the rules see the message.
fn test_meet(s: Station, m: Message) -> Result<(), Refusal>
    ensures { tested result ≡ meet_answer s m }
{
    if !station_is_sound(s) {
        return Err(Refusal::NotSound);
    }
    if !message_is_sound(m) {
        return Err(Refusal::NoRecord);
    }
    if !(m.from < s.count && m.to < s.count) {
        return Err(Refusal::NotBelowCount);
    }
    if m.to != s.number {
        return Err(Refusal::ForAnother);
    }
    Ok(())
}

// The five rules at the side for the sender: of what was tested, only a fill past the limit is
// still refused.
fn take_message(s: Station, m: Message) -> Outcome
    requires { meet_answer s m ≡ done }
    ensures { result ≡ receive_of s m }
{
    let taken = take(side_for(s, m.from), m);
    if taken.answer != DONE {
        return refuse(Refusal::ValueLimit, s);
    }
    Outcome {
        answer: DONE,
        result: taken.result,
        report: taken.report,
        station: put_side(s, m.from, taken.side),
    }
}

// Lets a station take a message: refused by 1, 9, 2, 11, 10.
#[tactic(auto, using(crate::proofs::ByRules::receive_unmet_by))]
pub fn receive(s: Station, m: Message) -> Outcome
    ensures { result ≡ receive_of s m }
{
    match test_meet(s, m) {
        Err(refusal) => refuse(refusal, s),
        Ok(()) => take_message(s, m),
    }
}
