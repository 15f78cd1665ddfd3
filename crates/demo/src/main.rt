// The demonstration: two stations exchange records as a transport would carry them, with a record
// that comes twice.
#![tactic(auto)]

use station::outcome::Outcome;
use station::station::Station;
use std::io;

// What a step told: its words, its answer, its result.
fn tell(rt: &impl Print, words: &str, r: Outcome) -> io::Result<()> {
    println!(rt; "{words}: answer {}, result {}", r.answer, r.result)
}

fn tell_station(rt: &impl Print, s: Station) -> io::Result<()> {
    println!(rt; "station {} holds {}", s.number, s.value)
}

// The sender writes its record for the receiver, the receiver takes those bytes.
fn carry(rt: &impl Print, words: &str, sender: Station, receiver: Station) -> io::Result<Station> {
    let mut buffer = [0; 68];
    let written = record::write_message(sender, receiver.number as u64, &mut buffer);
    let Some(bytes) = buffer.get(..written.result as usize) else {
        return Ok(receiver);
    };
    let taken = record::receive_bytes(receiver, bytes);
    tell(rt, words, taken)?;
    Ok(taken.station)
}

fn main(rt: HostRuntime) -> io::Result<()> {
    let poor = station::fresh(1, 2).station;
    let added = station::add(station::fresh(0, 2).station, 10);
    tell(&rt, "station 0 adds 10", added)?;
    let rich = added.station;
    let asks = carry(
        &rt,
        "station 1 hears station 0 and asks for half",
        rich,
        poor,
    )?;
    let gives = carry(&rt, "station 0 hears station 1 and gives", asks, rich)?;
    let filled = carry(&rt, "station 1 hears station 0 and is filled", gives, asks)?;
    let again = carry(&rt, "the same record once more", gives, filled)?;
    let refused = station::draw(again, 7);
    tell(
        &rt,
        "station 1 draws 7, which is more than is there",
        refused,
    )?;
    let drawn = station::draw(refused.station, 3);
    tell(&rt, "station 1 draws 3", drawn)?;
    tell_station(&rt, gives)?;
    tell_station(&rt, drawn.station)
}
