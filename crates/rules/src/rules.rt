// The five rules of receiving, in order, on the side of a station that is turned to the sender.
ghost use Rattle.std.specs.Prelude.{◌≡◌, ◌+◌, ◌≤◌, ◌<◌, min};
ghost use Rattle.ground.specs.Limits.{most_value};
ghost use Rattle.ground.specs.Clocks.{destination_above};
ghost use Rattle.rules.specs.Rules.{acts, rests, agree, fill, drop_slot, open_slot_by, destination_shown, drop_token, give, make_token};
ghost use Rattle.rules.specs.Taking.{TokenInRange};

use crate::held::{Slot, Token};
use crate::message::Message;
use crate::side::Side;

// What one rule did: whether it acted, its quantity, and the side that it left.
#[derive(Clone, Copy)]
pub struct Ruled {
    pub acted: bool,
    pub quantity: u64,
    pub side: Side,
}

fn acts_with(quantity: u64, side: Side) -> Ruled
    ensures { result ≡ acts quantity side }
{
    Ruled {
        acted: true,
        quantity,
        side,
    }
}

fn rests_at(side: Side) -> Ruled
    ensures { result ≡ rests side }
{
    Ruled {
        acted: false,
        quantity: 0,
        side,
    }
}

// Both clocks, each with its own kind.
pub fn clocks_agree(t: Token, l: Slot) -> bool
    ensures { result ≡ agree t l }
{
    t.source == l.source && t.destination == l.destination
}

pub(crate) fn rule1_fill(x: Side, m: Message) -> Ruled
    requires { (x.value ≤ most_value) × TokenInRange m.token }
    ensures { result ≡ fill x m }
{
    let (Some(token), Some(slot)) = (m.token, x.slot) else {
        return rests_at(x);
    };
    if !clocks_agree(token, slot) {
        return rests_at(x);
    }
    let value = x.value + token.quantity;
    acts_with(
        token.quantity,
        Side {
            value,
            slot: None,
            ..x
        },
    )
}

pub(crate) fn rule2_drop_slot(x: Side, m: Message) -> Ruled
    ensures ruled { result ≡ drop_slot x m }
    ensures value_stays { result.side.value ≡ x.value }
{
    let Some(slot) = x.slot else {
        return rests_at(x);
    };
    if m.source <= slot.source {
        return rests_at(x);
    }
    acts_with(0, Side { slot: None, ..x })
}

// h is half of what the sender has more.
pub(crate) fn rule3_open_slot(x: Side, m: Message, h: u64) -> Ruled
    ensures { result ≡ open_slot_by x m h x.slot }
{
    let None = x.slot else {
        return rests_at(x);
    };
    if !(1 <= h && x.destination.before_end()) {
        return rests_at(x);
    }
    let slot = Slot {
        source: m.source,
        destination: x.destination,
        quantity: h,
    };
    acts_with(
        h,
        Side {
            destination: x.destination.next(),
            slot: Some(slot),
            ..x
        },
    )
}

// Whether the sender's slots for this station that are left are all newer than the token's.
fn is_spent(token: Token, m: Message) -> bool
    ensures { result ≡ destination_above (destination_shown m) token.destination }
{
    match m.slot {
        Some(open) => token.destination < open.destination,
        None => token.destination < m.destination,
    }
}

pub(crate) fn rule4_drop_token(x: Side, m: Message) -> Ruled
    ensures { result ≡ drop_token x m }
{
    let Some(token) = x.token else {
        return rests_at(x);
    };
    if !is_spent(token, m) {
        return rests_at(x);
    }
    acts_with(0, Side { token: None, ..x })
}

// What rule 5 leaves where it acts: q out of the value and in the token, and the source clock one on.
fn give(x: Side, slot: Slot, q: u64) -> Side
    requires { q ≤ x.value }
    ensures { result ≡ give x slot q }
{
    let token = Token {
        source: slot.source,
        destination: slot.destination,
        quantity: q,
    };
    Side {
        value: x.value - q,
        source: x.source.next(),
        token: Some(token),
        ..x
    }
}

pub(crate) fn rule5_make_token(x: Side, m: Message) -> Ruled
    ensures { result ≡ make_token x m }
{
    let Some(slot) = m.slot else {
        return rests_at(x);
    };
    if !(slot.source == x.source && x.source.before_end()) {
        return rests_at(x);
    }
    let q = x.value.min(slot.quantity);
    acts_with(q, give(x, slot, q))
}
