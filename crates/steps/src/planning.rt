// What a step will do, by no more of a table than it looks at: one station, its cells for one peer,
// one place, and the lowest-numbered empty place.
ghost use Rattle.std.specs.Prelude.{◌≡◌};
ghost use Rattle.ground.specs.Tested.{number_of};
ghost use Rattle.steps.specs.Planning.{refused_plan, stock_plan, place_plan, message_by, send_plan, side_plan, deliver_plan, lose_plan, plan_at};

use crate::asked::Step;
use ground::answers::DONE;
use ground::refusal::Refusal;
use pool::places::MOST_PLACES;
use rules::message::Message;
use rules::report::{Report, no_report};
use rules::side::Side;
use rules::stock::Stock;
use rules::taking::Taken;

// What becomes of the one station or place: another stock, another side to the peer, another thing
// that waits.
#[derive(Clone, Copy)]
pub enum Change {
    Nothing,
    AtStock(u64, u64),
    AtSide(Side),
    AtPlace(usize, Option<Message>),
}

// What is told, and what changes.
#[derive(Clone, Copy)]
pub struct Plan {
    pub answer: u8,
    pub result: u64,
    pub report: Report,
    pub change: Change,
}

// The one place where a refusal is made: result 0, an empty report, nothing changes.
fn refused(answer: u8) -> Plan
    ensures { result ≡ refused_plan answer }
{
    Plan {
        answer,
        result: 0,
        report: no_report(),
        change: Change::Nothing,
    }
}

fn refuse(refusal: Refusal) -> Plan
    ensures { result ≡ refused_plan (number_of refusal) }
{
    refused(refusal.number())
}

// What an add or a draw did to the stock of station k of count.
fn plan_stock(k: u64, count: usize, r: Stock) -> Plan
    ensures { result ≡ stock_plan k count r }
{
    if count as u64 <= k {
        return refuse(Refusal::NotBelowCount);
    }
    if r.answer != DONE {
        return refused(r.answer);
    }
    Plan {
        answer: DONE,
        result: r.result,
        report: no_report(),
        change: Change::AtStock(r.value, r.intake),
    }
}

fn plan_place(p: usize, res: u64, waiting: Option<Message>) -> Plan
    ensures { result ≡ place_plan p res waiting }
{
    Plan {
        answer: DONE,
        result: res,
        report: no_report(),
        change: Change::AtPlace(p, waiting),
    }
}

fn message_of(from: usize, to: usize, x: Side) -> Message
    ensures { result ≡ message_by from to x }
{
    Message {
        from,
        to,
        value: x.value,
        source: x.source,
        destination: x.destination,
        slot: x.slot,
        token: x.token,
    }
}

// Station from of count shows station to its side x, in the lowest-numbered empty place.
fn plan_send(from: u64, to: u64, count: usize, x: Side, free: usize) -> Plan
    ensures { result ≡ send_plan from to count x free }
{
    let limit = count as u64;
    if !(from < limit && to < limit) {
        return refuse(Refusal::NotBelowCount);
    }
    if from == to {
        return refuse(Refusal::SameStation);
    }
    if MOST_PLACES <= free {
        return refuse(Refusal::PoolFull);
    }
    let m = message_of(from as usize, to as usize, x);
    plan_place(free, free as u64, Some(m))
}

// What the rules did to a side. Where none acted, nothing changes.
fn plan_side(r: Taken) -> Plan
    ensures { result ≡ side_plan r }
{
    if r.answer != DONE {
        return refused(r.answer);
    }
    let report = r.report;
    let acted = report.rule1 || report.rule2 || report.rule3 || report.rule4 || report.rule5;
    let change = if acted {
        Change::AtSide(r.side)
    } else {
        Change::Nothing
    };
    Plan {
        answer: DONE,
        result: r.result,
        report,
        change,
    }
}

// The side x takes the message that waits at place p.
fn plan_deliver(p: u64, waiting: Option<Message>, x: Side) -> Plan
    ensures { result ≡ deliver_plan p waiting x }
{
    if MOST_PLACES as u64 <= p {
        return refuse(Refusal::NoSuchPlace);
    }
    let Some(m) = waiting else {
        return refuse(Refusal::EmptyPlace);
    };
    plan_side(rules::take(x, m))
}

// Place p is emptied.
fn plan_lose(p: u64, waiting: Option<Message>) -> Plan
    ensures { result ≡ lose_plan p waiting }
{
    if MOST_PLACES as u64 <= p {
        return refuse(Refusal::NoSuchPlace);
    }
    let Some(_) = waiting else {
        return refuse(Refusal::EmptyPlace);
    };
    plan_place(p as usize, 0, None)
}

// What is asked for, by what of the table it looks at.
pub(crate) fn plan_at(
    count: usize,
    asked: Option<Step>,
    intake: u64,
    x: Side,
    waiting: Option<Message>,
    free: usize,
) -> Plan
    ensures { result ≡ plan_at count asked intake x waiting free }
{
    match asked {
        Some(Step::Add(k, amount)) => {
            plan_stock(k, count, rules::add_to(x.value, intake, amount))
        }
        Some(Step::Draw(k, amount)) => {
            plan_stock(k, count, rules::draw_from(x.value, intake, amount))
        }
        Some(Step::Send(from, to)) => plan_send(from, to, count, x, free),
        Some(Step::Deliver(p)) => plan_deliver(p, waiting, x),
        Some(Step::Lose(p)) => plan_lose(p, waiting),
        None => refuse(Refusal::BadLine),
    }
}
