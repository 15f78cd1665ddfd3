// What C and Rust call, through the crate quynhabet_c. The work is done on a station or a message
// by value, and what comes of it is stored in the lent numbers in one step.
ghost use Rattle.std.specs.Prelude.{◌≡◌};
ghost use Rattle.quynhabet.specs.Exports.{Gives, outcome_by, Makes, check_of, Adds, Draws, Shows, Receives, Reads, WritesNumbers};

use crate::messages::{message_numbers, message_of};
use crate::stations::{numbers_of, station_of};
use crate::told::{ToldNumbers, plain_told, refused, told_of};
use ground::answers::DONE;
use ground::refusal::Refusal;
use station::outcome::Outcome;
use station::sound::station_is_sound;

// The numbers change only where the answer is 0.
fn settle(o: Outcome, station: &mut [u64; 134]) -> ToldNumbers
    ensures { Gives (outcome_by o station.old) result station.new }
{
    if o.answer == DONE {
        *station = numbers_of(o.station);
    }
    told_of(o.answer, o.result, o.report)
}

// Makes a station with nothing in it: refused by 1, 2.
#[tactic(auto, unfolding(crate::specs::Exports::fresh_by))]
pub fn qb_station_fresh(number: u64, count: u64, station: &mut [u64; 134]) -> ToldNumbers
    ensures { Makes number count station.old result station.new }
{
    settle(station::fresh(number, count), station)
}

// Whether the numbers are a sound station: refused by 1.
#[tactic(auto, unfolding(crate::specs::Exports::check_of))]
pub fn qb_station_check(station: &[u64; 134]) -> ToldNumbers
    ensures { result ≡ check_of station.now }
{
    match station_of(station) {
        Some(s) if station_is_sound(s) => plain_told(DONE, 0),
        _ => refused(Refusal::NotSound),
    }
}

// Raises value and intake: refused by 1, 4, 5, 10.
#[tactic(auto, unfolding(crate::specs::Exports::add_by))]
pub fn qb_station_add(station: &mut [u64; 134], amount: u64) -> ToldNumbers
    ensures { Adds station.old amount result station.new }
{
    let Some(s) = station_of(station) else {
        return refused(Refusal::NotSound);
    };
    settle(station::add(s, amount), station)
}

// Takes the amount, all or none of it: refused by 1, 4, 15.
#[tactic(auto, unfolding(crate::specs::Exports::draw_by))]
pub fn qb_station_draw(station: &mut [u64; 134], amount: u64) -> ToldNumbers
    ensures { Draws station.old amount result station.new }
{
    let Some(s) = station_of(station) else {
        return refused(Refusal::NotSound);
    };
    settle(station::draw(s, amount), station)
}

// Writes the station's message for another station as a record: refused by 1, 2, 3, 14.
#[tactic(auto, using(crate::proofs::Giving::gives_written), unfolding(crate::specs::Exports::show_by))]
pub fn qb_station_write(station: &[u64; 134], to: u64, out: &mut [u8]) -> ToldNumbers
    ensures { Shows station.now to out.old result out.new }
{
    let Some(s) = station_of(station) else {
        return refused(Refusal::NotSound);
    };
    let written = record::write_message(s, to, out);
    plain_told(written.answer, written.result)
}

// Lets the station take a record: refused by 1, 9, 2, 11, 10.
#[tactic(auto, unfolding(crate::specs::Exports::receive_by))]
pub fn qb_station_receive(station: &mut [u64; 134], bytes: &[u8]) -> ToldNumbers
    ensures { Receives station.old bytes.now result station.new }
{
    let Some(s) = station_of(station) else {
        return refused(Refusal::NotSound);
    };
    settle(record::receive_bytes(s, bytes), station)
}

// Reads a record into a message: refused by 9.
#[tactic(auto, unfolding(crate::specs::Exports::read_by))]
pub fn qb_record_read(bytes: &[u8], message: &mut [u64; 13]) -> ToldNumbers
    ensures { Reads bytes.now message.old result message.new }
{
    let got = record::read(bytes);
    if got.answer == DONE {
        let later = message_numbers(got.message);
        *message = later;
    }
    plain_told(got.answer, got.result)
}

// Writes a message as a record: refused by 9, 14.
#[tactic(auto, using(crate::proofs::Giving::gives_written), unfolding(crate::specs::Exports::write_by))]
pub fn qb_record_write(message: &[u64; 13], out: &mut [u8]) -> ToldNumbers
    ensures { WritesNumbers message.now out.old result out.new }
{
    let Some(m) = message_of(message) else {
        return refused(Refusal::NoRecord);
    };
    let written = record::write(m, out);
    plain_told(written.answer, written.result)
}
