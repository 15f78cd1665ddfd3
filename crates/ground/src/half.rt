// Half of a difference.
ghost use Rattle.std.specs.Prelude.{◌≡◌};
ghost use Rattle.ground.specs.Half.{half_of};

// Rounded down, and 0 where the difference is negative.
pub fn half(d: i64) -> u64
    ensures { result ≡ half_of d }
{
    if d < 0 {
        return 0;
    }
    (d / 2) as u64
}
