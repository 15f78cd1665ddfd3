// Which places of a pool are taken, kept so that a search can be lent them.
ghost use Rattle.std.specs.Prelude.{◌≡◌};
ghost use Rattle.steps.specs.Looking.{flags_of, lowest_zero};

use pool::places::{MOST_PLACES, Place};

pub(crate) fn flags_of(pool: &[Place; MOST_PLACES]) -> [bool; MOST_PLACES]
    ensures { result ≡ flags_of pool.now }
{
    let mut taken = [false; MOST_PLACES];
    for (p, place) in pool.iter().enumerate() {
        taken[p] = place.waiting.is_some();
    }
    taken
}

// The lowest-numbered empty place, or 64 where all are taken: every place before it is taken.
pub(crate) fn lowest_empty(taken: &[bool; MOST_PLACES]) -> usize
    ensures { result ≡ lowest_zero taken.now }
{
    let mut p = 0;
    loop {
        if MOST_PLACES <= p {
            break MOST_PLACES;
        }
        if !taken[p] {
            break p;
        }
        p += 1;
    }
}
