// Fields 5 and 6, which may be missing.
ghost use Rattle.std.specs.Prelude.{◌≡◌, ◌+◌, ◌≤◌, length};
ghost use Rattle.record.specs.Reading.{terms_at, held_next};

use crate::faults::Fault;
use crate::fields::Line;
use crate::numbers::{clock_at, number_at};
use crate::reader::next_at;
use ground::clocks::{DestinationClock, SourceClock};
use rules::held::{Held, Terms};

fn terms_at(bytes: &[u8], at: usize) -> Terms
    requires { at + 16 ≤ length bytes.now }
    ensures { result ≡ terms_at bytes.now at }
{
    Terms {
        source: SourceClock(clock_at(bytes, at)),
        destination: DestinationClock(clock_at(bytes, at + 4)),
        quantity: number_at(bytes, at + 8, 8),
    }
}

// What is held by the field of this line, or nothing where the field is missing, and the next byte.
// Whether it is sound with what was read before is another test.
#[tactic(auto, using(crate::proofs::Helds::handed_back))]
pub(crate) fn held_after<H: Held>(
    bytes: &[u8],
    at: usize,
    line: Line,
) -> Result<(Option<H>, usize), Fault>
    requires { line.size ≡ 16 }
    ensures { result ≡ held_next H.held_on bytes.now at line }
{
    let next = next_at(bytes, at, line)?;
    if next == at {
        return Ok((None, at));
    }
    Ok((Some(H::on(terms_at(bytes, at + 3))), next))
}
