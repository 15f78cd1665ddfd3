// A pool that is lent: its places stand in the caller's memory, and a step changes at most one of
// them.
ghost use Rattle.std.specs.Prelude.{◌≡◌};
ghost use Rattle.ground.specs.Tested.{number_of};
ghost use Rattle.ground.specs.Told.{told_with};
ghost use Rattle.pool.specs.Lent.{SendsIn, LosesIn, sent_value, lost_value};

use crate::places::{MOST_PLACES, Place};
use ground::answers::DONE;
use ground::refusal::Refusal;
use ground::told::Told;
use rules::message::Message;

// The one place where a refusal is made: result 0.
fn refuse(refusal: Refusal) -> Told
    ensures { result ≡ told_with (number_of refusal) 0 }
{
    Told {
        answer: refusal.number(),
        result: 0,
    }
}

// The message goes to the lowest-numbered empty place, which is the result: refused by 1, 6.
pub fn send_in(pool: &mut [Place], m: Message) -> Told
    ensures { SendsIn pool.old m result pool.new }
{
    if pool.len() != MOST_PLACES {
        return refuse(Refusal::NotSound);
    }
    let mut p: usize = 0;
    let found = loop {
        if MOST_PLACES <= p {
            return refuse(Refusal::PoolFull);
        }
        match pool[p].waiting {
            None => break p,
            Some(_) => p = p + 1,
        }
    };
    pool[found] = Place { waiting: Some(m) };
    Told {
        answer: DONE,
        result: found as u64,
    }
}

// A place that holds a message is emptied: refused by 1, 7, 8.
pub fn lose_in(pool: &mut [Place], p: u64) -> Told
    ensures { LosesIn pool.old p result pool.new }
{
    if pool.len() != MOST_PLACES {
        return refuse(Refusal::NotSound);
    }
    if MOST_PLACES as u64 <= p {
        return refuse(Refusal::NoSuchPlace);
    }
    let at = p as usize;
    let Some(_) = pool[at].waiting else {
        return refuse(Refusal::EmptyPlace);
    };
    pool[at] = Place { waiting: None };
    Told {
        answer: DONE,
        result: 0,
    }
}

// A pool by value, after a step on it.
#[derive(Clone, Copy)]
pub struct Pooled {
    pub told: Told,
    pub pool: [Place; MOST_PLACES],
}

// The same two steps, on a pool by value. What they promise names no reference, so that a caller
// needs none.
pub fn send_value(pool: [Place; MOST_PLACES], m: Message) -> Pooled
    ensures { result ≡ sent_value pool m }
{
    let mut mine = pool;
    let told = send_in(&mut mine, m);
    Pooled { told, pool: mine }
}

pub fn lose_value(pool: [Place; MOST_PLACES], p: u64) -> Pooled
    ensures { result ≡ lost_value pool p }
{
    let mut mine = pool;
    let told = lose_in(&mut mine, p);
    Pooled { told, pool: mine }
}
