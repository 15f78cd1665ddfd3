// The entry points of one station that need no message: fresh, add, draw.
ghost use Rattle.std.specs.Prelude.{◌≡◌};
ghost use Rattle.ground.specs.Tested.{tested};
ghost use Rattle.station.specs.Steps.{blank, fresh_answer, fresh_of, stock_outcome, add_of, draw_of};

use crate::held::PeerCell;
use crate::outcome::{Outcome, refuse};
use crate::sound::{count_is_sound, station_is_sound};
use crate::station::Station;
use ground::answers::DONE;
use ground::clocks::{DestinationClock, SourceClock};
use ground::limits::MOST_STATIONS;
use ground::refusal::Refusal;
use rules::report::no_report;
use rules::stock::{Stock, add_to, draw_from};

pub fn blank_station(number: usize, count: usize) -> Station
    ensures { result ≡ blank number count }
{
    Station {
        number,
        count,
        value: 0,
        intake: 0,
        source: SourceClock(0),
        destination: DestinationClock(0),
        slots: [PeerCell { held: None }; MOST_STATIONS],
        tokens: [PeerCell { held: None }; MOST_STATIONS],
    }
}

fn test_fresh(number: u64, count: u64) -> Result<(), Refusal>
    ensures { tested result ≡ fresh_answer number count }
{
    if !count_is_sound(count) {
        return Err(Refusal::NotSound);
    }
    if count <= number {
        return Err(Refusal::NotBelowCount);
    }
    Ok(())
}

// A station with nothing in it: refused by 1, 2.
#[tactic(auto, using(ground::proofs::Tested::not_done), unfolding(crate::specs::Steps::fresh_of))]
pub fn fresh(number: u64, count: u64) -> Outcome
    ensures { result ≡ fresh_of number count }
{
    if let Err(refusal) = test_fresh(number, count) {
        return refuse(refusal, blank_station(0, 0));
    }
    Outcome {
        answer: DONE,
        result: 0,
        report: no_report(),
        station: blank_station(number as usize, count as usize),
    }
}

// The outcome at a station whose stock is then that one.
fn stock_outcome(s: Station, stock: Stock) -> Outcome
    ensures { result ≡ stock_outcome s stock }
{
    Outcome {
        answer: stock.answer,
        result: stock.result,
        report: no_report(),
        station: Station {
            value: stock.value,
            intake: stock.intake,
            ..s
        },
    }
}

// Raises value and intake: refused by 1, 4, 5, 10.
#[tactic(auto, using(crate::proofs::ByRules::add_by_stock, crate::proofs::ByRules::unsound_add))]
pub fn add(s: Station, amount: u64) -> Outcome
    ensures { result ≡ add_of s amount }
{
    if !station_is_sound(s) {
        return refuse(Refusal::NotSound, s);
    }
    stock_outcome(s, add_to(s.value, s.intake, amount))
}

// Takes the amount, all or none of it: refused by 1, 4, 15.
#[tactic(auto, using(crate::proofs::ByRules::draw_by_stock, crate::proofs::ByRules::unsound_draw))]
pub fn draw(s: Station, amount: u64) -> Outcome
    ensures { result ≡ draw_of s amount }
{
    if !station_is_sound(s) {
        return refuse(Refusal::NotSound, s);
    }
    stock_outcome(s, draw_from(s.value, s.intake, amount))
}
