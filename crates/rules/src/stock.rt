// What an add and a draw do to a stock of passes: a value, and the intake, which is all that was
// ever added.
ghost use Rattle.std.specs.Prelude.{◌≡◌};
ghost use Rattle.ground.specs.Tested.{number_of, tested};
ghost use Rattle.rules.specs.Stock.{stock_sound, amount_sound, refused_stock, add_to_answer, added_to, drawn_from};

use ground::answers::DONE;
use ground::limits::{MOST_AMOUNT, MOST_INTAKE, MOST_VALUE};
use ground::refusal::Refusal;

#[derive(Clone, Copy)]
pub struct Stock {
    pub answer: u8,
    pub result: u64,
    pub value: u64,
    pub intake: u64,
}

fn stock_is_sound(value: u64, intake: u64) -> bool
    ensures { result ≡ stock_sound value intake }
{
    value <= MOST_VALUE && intake <= MOST_INTAKE
}

fn amount_is_sound(amount: u64) -> bool
    ensures { result ≡ amount_sound amount }
{
    (1..=MOST_AMOUNT).contains(&amount)
}

// A refusal: result 0, and the stock as it was.
fn refuse(refusal: Refusal, value: u64, intake: u64) -> Stock
    ensures { result ≡ refused_stock (number_of refusal) value intake }
{
    Stock {
        answer: refusal.number(),
        result: 0,
        value,
        intake,
    }
}

fn test_add(value: u64, intake: u64, amount: u64) -> Result<(), Refusal>
    ensures { tested result ≡ add_to_answer value intake amount }
{
    if !stock_is_sound(value, intake) {
        return Err(Refusal::NotSound);
    }
    if !amount_is_sound(amount) {
        return Err(Refusal::BadAmount);
    }
    if MOST_INTAKE < intake + amount {
        return Err(Refusal::IntakeLimit);
    }
    if MOST_VALUE < value + amount {
        return Err(Refusal::ValueLimit);
    }
    Ok(())
}

// Raises value and intake: refused by 1, 4, 5, 10.
#[tactic(auto, using(ground::proofs::Tested::not_done), unfolding(crate::specs::Stock::added_to))]
pub fn add_to(value: u64, intake: u64, amount: u64) -> Stock
    ensures { result ≡ added_to value intake amount }
{
    if let Err(refusal) = test_add(value, intake, amount) {
        return refuse(refusal, value, intake);
    }
    let more = value + amount;
    Stock {
        answer: DONE,
        result: more,
        value: more,
        intake: intake + amount,
    }
}

// Takes the amount, all or none of it: refused by 1, 4, 15.
#[tactic(auto, unfolding(crate::specs::Stock::drawn_from))]
pub fn draw_from(value: u64, intake: u64, amount: u64) -> Stock
    ensures { result ≡ drawn_from value intake amount }
{
    if !stock_is_sound(value, intake) {
        return refuse(Refusal::NotSound, value, intake);
    }
    if !amount_is_sound(amount) {
        return refuse(Refusal::BadAmount, value, intake);
    }
    // never more than is there, so that nothing goes below 0
    let taken = value.min(amount);
    if taken < amount {
        return refuse(Refusal::TooFew, value, intake);
    }
    Stock {
        answer: DONE,
        result: taken,
        value: value - taken,
        intake,
    }
}
