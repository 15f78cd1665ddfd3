// Half of the difference of two values, as document 01's rule 3 has it.
ghost use Rattle.std.specs.Prelude.{◌≡◌, ◌≤◌, pos, ◌-ℤ◌};
ghost use Rattle.ground.specs.Limits.{most_value};
ghost use Rattle.rules.specs.Half.{half_above};

use ground::half::half;

fn difference(theirs: u64, ours: u64) -> i64
    requires { (theirs ≤ most_value) × (ours ≤ most_value) }
    ensures { result ≡ pos theirs -ℤ pos ours }
{
    (theirs as i64) - (ours as i64)
}

pub(crate) fn half_above(theirs: u64, ours: u64) -> u64
    requires { (theirs ≤ most_value) × (ours ≤ most_value) }
    ensures { result ≡ half_above theirs ours }
{
    half(difference(theirs, ours))
}
