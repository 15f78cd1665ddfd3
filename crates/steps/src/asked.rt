// What a table can be asked to do, and the numbers that name it.
ghost use Rattle.std.specs.Prelude.{◌≡◌};
ghost use Rattle.steps.specs.Running.{asked_by, numbers_for};

// A station and an amount; a sender and a receiver; a place.
#[derive(Clone, Copy)]
pub enum Step {
    Add(u64, u64),
    Draw(u64, u64),
    Send(u64, u64),
    Deliver(u64),
    Lose(u64),
}

// Three numbers, as a run of steps is lent them.
pub fn numbers_for(asked: Option<Step>) -> [u64; 3]
    ensures { result ≡ numbers_for asked }
{
    match asked {
        Some(Step::Add(k, amount)) => [0, k, amount],
        Some(Step::Draw(k, amount)) => [1, k, amount],
        Some(Step::Send(from, to)) => [2, from, to],
        Some(Step::Deliver(p)) => [3, p, 0],
        Some(Step::Lose(p)) => [4, p, 0],
        None => [5, 0, 0],
    }
}

// And back: 0 an add, 1 a draw, 2 a send, 3 a delivery, 4 a loss; any other names no step.
pub fn asked_by(kind: u64, a: u64, b: u64) -> Option<Step>
    ensures { result ≡ asked_by kind a b }
{
    match kind {
        0 => Some(Step::Add(a, b)),
        1 => Some(Step::Draw(a, b)),
        2 => Some(Step::Send(a, b)),
        3 => Some(Step::Deliver(a)),
        4 => Some(Step::Lose(a)),
        _ => None,
    }
}
