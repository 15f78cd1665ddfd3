// Input at the edges, through the compiled entry points. Each line is the words, the answer and the
// result.
#![tactic(auto)]

use ground::clocks::{DestinationClock, SourceClock};
use pool::places::Place;
use rules::held::{Slot, Token};
use rules::message::Message;
use station::station::Station;
use std::io;
use steps::asked::Step;
use table::table::Table;

const LARGEST: u64 = u64::MAX;

fn tell(rt: &impl Print, words: &str, answer: u8, res: u64) -> io::Result<()> {
    println!(rt; "{words} {answer} {res}")
}

fn try_fresh(rt: &impl Print, words: &str, number: u64, count: u64) -> io::Result<()> {
    let r = station::fresh(number, count);
    tell(rt, words, r.answer, r.result)
}

fn try_add(rt: &impl Print, words: &str, s: Station, amount: u64) -> io::Result<()> {
    let r = station::add(s, amount);
    tell(rt, words, r.answer, r.result)
}

fn try_draw(rt: &impl Print, words: &str, s: Station, amount: u64) -> io::Result<()> {
    let r = station::draw(s, amount);
    tell(rt, words, r.answer, r.result)
}

// A message with a slot and a token: 68 bytes.
fn full_message() -> Message {
    Message {
        from: 0,
        to: 1,
        value: 3,
        source: SourceClock(1),
        destination: DestinationClock(u32::MAX),
        slot: Some(Slot {
            source: SourceClock(0),
            destination: DestinationClock(u32::MAX - 1),
            quantity: 16000000000,
        }),
        token: Some(Token {
            source: SourceClock(0),
            destination: DestinationClock(0),
            quantity: 5,
        }),
    }
}

// Writes into the first room bytes.
fn try_message(rt: &impl Print, words: &str, s: Station, to: u64, room: usize) -> io::Result<()> {
    let mut buffer = [7; 80];
    if let Some(part) = buffer.get_mut(..room) {
        let w = record::write_message(s, to, part);
        tell(rt, words, w.answer, w.result)?;
    }
    Ok(())
}

// Writes the message into the first room bytes, and reads the first size bytes back.
fn try_record(
    rt: &impl Print,
    words: &str,
    m: Message,
    room: usize,
    size: usize,
) -> io::Result<()> {
    let mut buffer = [7; 80];
    if let Some(part) = buffer.get_mut(..room) {
        let w = record::write(m, part);
        tell(rt, words, w.answer, w.result)?;
    }
    if let Some(part) = buffer.get(..size) {
        let r = record::read(part);
        tell(rt, "  read", r.answer, r.result)?;
    }
    Ok(())
}

// The first size bytes of the full record with another sender, received.
fn try_sender(rt: &impl Print, words: &str, s: Station, from: u8, size: usize) -> io::Result<()> {
    let mut buffer = [7; 80];
    record::write(full_message(), &mut buffer);
    buffer[3] = from;
    if let Some(part) = buffer.get(..size) {
        let r = record::receive_bytes(s, part);
        tell(rt, words, r.answer, r.result)?;
    }
    Ok(())
}

fn fresh_stations(rt: &impl Print) -> io::Result<()> {
    try_fresh(rt, "fresh 0 of 0", 0, 0)?;
    try_fresh(rt, "fresh 0 of 1", 0, 1)?;
    try_fresh(rt, "fresh 0 of 2", 0, 2)?;
    try_fresh(rt, "fresh 15 of 16", 15, 16)?;
    try_fresh(rt, "fresh 16 of 16", 16, 16)?;
    try_fresh(rt, "fresh 0 of 17", 0, 17)?;
    try_fresh(rt, "fresh largest of largest", LARGEST, LARGEST)
}

fn adds(rt: &impl Print, s: Station) -> io::Result<()> {
    try_add(rt, "add 0", s, 0)?;
    try_add(rt, "add 1", s, 1)?;
    try_add(rt, "add 1000000000", s, 1000000000)?;
    try_add(rt, "add 1000000001", s, 1000000001)?;
    try_add(rt, "add largest", s, LARGEST)
}

// A station at its intake's limit.
fn draws(rt: &impl Print, rich: Station) -> io::Result<()> {
    try_add(rt, "add past the intake", rich, 1)?;
    try_draw(rt, "draw 0", rich, 0)?;
    try_draw(rt, "draw 1000000000", rich, 1000000000)
}

// A station with 5.
fn all_or_none(rt: &impl Print, five: Station) -> io::Result<()> {
    try_draw(rt, "draw 4 of 5", five, 4)?;
    try_draw(rt, "draw 5 of 5", five, 5)?;
    try_draw(rt, "draw 6 of 5", five, 6)?;
    try_draw(rt, "draw 0 of 5", five, 0)?;
    try_draw(rt, "draw 1000000000 of 5", five, 1000000000)?;
    try_draw(rt, "draw 1000000001 of 5", five, 1000000001)
}

fn no_station(rt: &impl Print) -> io::Result<()> {
    let unsound = station::fresh(0, 0).station;
    try_add(rt, "add at no station", unsound, 1)?;
    try_draw(rt, "draw at no station", unsound, 1)?;
    try_message(rt, "message of no station", unsound, 1, 80)
}

fn messages(rt: &impl Print, s: Station) -> io::Result<()> {
    try_message(rt, "message for 0", s, 0, 80)?;
    try_message(rt, "message for itself", s, 1, 80)?;
    try_message(rt, "message for 2 of 2", s, 2, 80)?;
    try_message(rt, "message for largest", s, LARGEST, 80)?;
    try_message(rt, "message into 30 bytes", s, 0, 30)?;
    try_message(rt, "message into 29 bytes", s, 0, 29)?;
    try_message(rt, "message into no bytes", s, 0, 0)
}

fn stations(rt: &impl Print) -> io::Result<()> {
    let s = station::fresh(1, 2).station;
    adds(rt, s)?;
    let rich = station::add(s, 1000000000).station;
    draws(rt, rich)?;
    try_draw(rt, "draw from nothing", s, 1)?;
    try_draw(rt, "draw largest", rich, LARGEST)?;
    all_or_none(rt, station::add(s, 5).station)?;
    no_station(rt)?;
    messages(rt, s)
}

fn records(rt: &impl Print) -> io::Result<()> {
    let m = full_message();
    try_record(rt, "write into 68", m, 68, 68)?;
    try_record(rt, "write into 67", m, 67, 68)?;
    try_record(rt, "write, one byte more", m, 80, 69)?;
    try_record(rt, "write, cut inside field 6", m, 80, 67)?;
    try_record(rt, "write, cut after field 5", m, 80, 49)?;
    try_record(rt, "write, cut inside field 5", m, 80, 48)?;
    try_record(rt, "write, cut after field 4", m, 80, 30)?;
    try_record(rt, "write, cut inside field 4", m, 80, 29)?;
    try_record(rt, "write, no bytes", m, 80, 0)?;
    try_record(
        rt,
        "write what is not sound",
        rules::message::no_message(),
        80,
        30,
    )
}

fn received(rt: &impl Print) -> io::Result<()> {
    let s = station::fresh(1, 2).station;
    let other = station::fresh(0, 2).station;
    let none = station::fresh(0, 0).station;
    try_sender(rt, "receive 68 bytes", s, 0, 68)?;
    try_sender(rt, "receive 67 bytes", s, 0, 67)?;
    try_sender(rt, "receive no bytes", s, 0, 0)?;
    try_sender(rt, "receive for another", other, 0, 49)?;
    try_sender(rt, "receive from 2 of 2", s, 2, 68)?;
    try_sender(rt, "receive from itself", s, 1, 68)?;
    try_sender(rt, "receive at no station", none, 0, 67)
}

// One step, told; the table after it.
fn go(rt: &impl Print, words: &str, t: Table, s: Step) -> io::Result<Table> {
    let r = steps::step(t, s);
    tell(rt, words, r.answer, r.result)?;
    Ok(r.table)
}

// The script that the rules work out by hand: until a token is made, and from then on.
fn asked_for(rt: &impl Print, t: Table) -> io::Result<Table> {
    let t = go(rt, "add 0 10", t, Step::Add(0, 10))?;
    let t = go(rt, "send 0 1", t, Step::Send(0, 1))?;
    let t = go(rt, "deliver 0", t, Step::Deliver(0))?;
    let t = go(rt, "send 1 0", t, Step::Send(1, 0))?;
    go(rt, "deliver 1", t, Step::Deliver(1))
}

fn landed(rt: &impl Print, t: Table) -> io::Result<Table> {
    let t = go(rt, "draw 0 7", t, Step::Draw(0, 7))?;
    let t = go(rt, "send 0 1", t, Step::Send(0, 1))?;
    let t = go(rt, "deliver 2", t, Step::Deliver(2))?;
    let t = go(rt, "deliver 2", t, Step::Deliver(2))?;
    let t = go(rt, "lose 2", t, Step::Lose(2))?;
    go(rt, "send 0 0", t, Step::Send(0, 0))
}

fn worked(rt: &impl Print) -> io::Result<()> {
    let asked = asked_for(rt, table::fresh_table(2).table)?;
    let last = landed(rt, asked)?;
    let way = table::on_the_way(last);
    tell(rt, "on the way", way.answer, way.result)?;
    let values = table::at_stations(last);
    tell(rt, "at stations", values.answer, values.result)
}

fn try_table(rt: &impl Print, words: &str, count: u64) -> io::Result<Table> {
    let made = table::fresh_table(count);
    tell(rt, words, made.answer, made.result)?;
    Ok(made.table)
}

fn numbers_too_large(rt: &impl Print, t: Table) -> io::Result<()> {
    go(rt, "add at 16", t, Step::Add(16, 1))?;
    go(rt, "add at 4294967296", t, Step::Add(4294967296, 1))?;
    go(rt, "add 9999999999", t, Step::Add(0, 9999999999))?;
    go(rt, "draw at largest", t, Step::Draw(LARGEST, 1))?;
    go(rt, "draw at 16", t, Step::Draw(16, 1))?;
    go(rt, "draw 1 of 0", t, Step::Draw(15, 1))?;
    go(rt, "send to largest", t, Step::Send(0, LARGEST))?;
    Ok(())
}

fn places(rt: &impl Print, t: Table) -> io::Result<()> {
    go(rt, "deliver 0", t, Step::Deliver(0))?;
    go(rt, "deliver 64", t, Step::Deliver(64))?;
    go(rt, "deliver 4294967296", t, Step::Deliver(4294967296))?;
    go(rt, "lose 63", t, Step::Lose(63))?;
    go(rt, "lose largest", t, Step::Lose(LARGEST))?;
    Ok(())
}

fn edges(rt: &impl Print) -> io::Result<()> {
    let none = try_table(rt, "table of 1", 1)?;
    try_table(rt, "table of 17", 17)?;
    let t = try_table(rt, "table of 16", 16)?;
    numbers_too_large(rt, t)?;
    places(rt, t)?;
    go(rt, "add in no table", none, Step::Add(0, 1))?;
    let sum = table::on_the_way(none);
    tell(rt, "on the way in no table", sum.answer, sum.result)
}

// One step on a pool, told; the pool after it.
fn put(rt: &impl Print, words: &str, pool: [Place; 64], m: Message) -> io::Result<[Place; 64]> {
    let r = pool::lent::send_value(pool, m);
    tell(rt, words, r.told.answer, r.told.result)?;
    Ok(r.pool)
}

fn clear(rt: &impl Print, words: &str, pool: [Place; 64], p: u64) -> io::Result<[Place; 64]> {
    let r = pool::lent::lose_value(pool, p);
    tell(rt, words, r.told.answer, r.told.result)?;
    Ok(r.pool)
}

// The pool by itself.
fn pools(rt: &impl Print) -> io::Result<()> {
    let m = full_message();
    let empty = Place { waiting: None };
    let pool = put(rt, "send into an empty pool", [empty; 64], m)?;
    let pool = put(rt, "send again", pool, m)?;
    let pool = clear(rt, "lose place 0", pool, 0)?;
    let pool = put(rt, "send into the freed place", pool, m)?;
    let pool = clear(rt, "lose an empty place", pool, 2)?;
    clear(rt, "lose place 64", pool, 64)?;
    let taken = Place { waiting: Some(m) };
    put(rt, "send into a full pool", [taken; 64], m)?;
    Ok(())
}

fn main(rt: HostRuntime) -> io::Result<()> {
    fresh_stations(&rt)?;
    stations(&rt)?;
    records(&rt)?;
    received(&rt)?;
    worked(&rt)?;
    edges(&rt)?;
    pools(&rt)
}
