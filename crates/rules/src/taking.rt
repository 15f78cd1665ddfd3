// Taking a message: the five rules in order, each at what the earlier ones left.
ghost use Rattle.std.specs.Prelude.{◌≡◌};
ghost use Rattle.ground.specs.Tested.{number_of, tested};
ghost use Rattle.rules.specs.Taking.{token_small, take_answer, five_rules, refused_taking, taken_of, Takes};

use crate::half::half_above;
use crate::held::Token;
use crate::message::Message;
use crate::report::{Report, no_report};
use crate::rules::{
    rule1_fill, rule2_drop_slot, rule3_open_slot, rule4_drop_token, rule5_make_token,
};
use crate::side::Side;
use ground::answers::DONE;
use ground::limits::MOST_VALUE;
use ground::refusal::Refusal;

// The numbered answer, the amount filled, the report, and the side that the rules left.
#[derive(Clone, Copy)]
pub struct Taken {
    pub answer: u8,
    pub result: u64,
    pub report: Report,
    pub side: Side,
}

fn token_is_small(held: Option<Token>) -> bool
    ensures { result ≡ token_small held }
{
    held.is_none_or(|token| token.quantity <= MOST_VALUE)
}

fn test_take(x: Side, m: Message) -> Result<(), Refusal>
    ensures { tested result ≡ take_answer x m }
{
    if MOST_VALUE < x.value {
        return Err(Refusal::NotSound);
    }
    if !(m.value <= MOST_VALUE && token_is_small(m.token)) {
        return Err(Refusal::NoRecord);
    }
    if MOST_VALUE < rule1_fill(x, m).side.value {
        return Err(Refusal::ValueLimit);
    }
    Ok(())
}

#[tactic(auto, unfolding(crate::specs::Taking::five_rules))]
fn five_rules(x: Side, m: Message) -> Taken
    requires { Takes x m }
    ensures { result ≡ five_rules x m }
{
    let one = rule1_fill(x, m);
    let two = rule2_drop_slot(one.side, m);
    let h = half_above(m.value, two.side.value);
    let three = rule3_open_slot(two.side, m, h);
    let four = rule4_drop_token(three.side, m);
    let five = rule5_make_token(four.side, m);
    Taken {
        answer: DONE,
        result: one.quantity,
        report: Report {
            rule1: one.acted,
            rule2: two.acted,
            rule3: three.acted,
            rule4: four.acted,
            rule5: five.acted,
            opened: three.quantity,
            made: five.quantity,
        },
        side: five.side,
    }
}

// A refusal: result 0, no rule named, and the side as it was.
fn refuse(refusal: Refusal, side: Side) -> Taken
    ensures { result ≡ refused_taking (number_of refusal) side }
{
    Taken {
        answer: refusal.number(),
        result: 0,
        report: no_report(),
        side,
    }
}

// Lets a side take a message: refused by 1, 9, 10.
#[tactic(auto, using(ground::proofs::Tested::not_done), unfolding(crate::specs::Taking::taken_of))]
pub fn take(x: Side, m: Message) -> Taken
    ensures { result ≡ taken_of x m }
{
    if let Err(refusal) = test_take(x, m) {
        return refuse(refusal, x);
    }
    five_rules(x, m)
}
