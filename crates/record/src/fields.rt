// A field looked for at a position of a slice.
ghost use Rattle.std.specs.Prelude.{◌≡◌};
ghost use Rattle.record.specs.Reading.{whole_at, next_of};

use crate::faults::{Fault, FaultKind};
use crate::numbers::number_at;

// A line of the table: tag, length, whether the field must be there, whether it is the last one.
#[derive(Clone, Copy)]
pub struct Line {
    pub tag: u64,
    pub size: usize,
    pub must: bool,
    pub last: bool,
}

// Whether a whole field of this line stands at a position.
#[tactic(auto, using(crate::proofs::Finding::too_short, crate::proofs::Finding::tested))]
fn whole_at(bytes: &[u8], at: usize, line: Line) -> bool
    ensures { result ≡ whole_at bytes.now at line.tag line.size }
{
    if bytes.len() < at {
        return false;
    }
    let left = bytes.len() - at;
    if left < 3 || left - 3 < line.size {
        return false;
    }
    (number_at(bytes, at, 1) == line.tag) & (number_at(bytes, at + 1, 2) == line.size as u64)
}

// One test after the other.
#[tactic(auto, using(crate::proofs::Finding::one_by_one), unfolding(crate::specs::Reading::next_of))]
fn look_at(bytes: &[u8], at: usize, line: Line) -> Result<usize, Fault>
    ensures { result ≡ next_of bytes.now at line }
{
    let end = bytes.len();
    let cut = Fault {
        kind: FaultKind::Cut,
        at: end,
    };
    if end <= at {
        return if line.must { Err(cut) } else { Ok(at) };
    }
    let left = end - at;
    if left < 3 {
        return Err(cut);
    }
    if number_at(bytes, at, 1) != line.tag {
        if line.must || line.last {
            return Err(Fault {
                kind: FaultKind::OtherTag,
                at,
            });
        }
        return Ok(at);
    }
    if number_at(bytes, at + 1, 2) != line.size as u64 {
        return Err(Fault {
            kind: FaultKind::OtherLength,
            at,
        });
    }
    if left - 3 < line.size {
        return Err(cut);
    }
    Ok(at + 3 + line.size)
}

// The byte after the field, or the same byte where it is missing and may be. The test that a sound
// record passes comes first.
#[tactic(auto, using(crate::proofs::Finding::at_once), unfolding(crate::specs::Reading::next_of))]
pub(crate) fn take_at(bytes: &[u8], at: usize, line: Line) -> Result<usize, Fault>
    ensures { result ≡ next_of bytes.now at line }
{
    if whole_at(bytes, at, line) {
        return Ok(at + 3 + line.size);
    }
    look_at(bytes, at, line)
}
