// Fields 1 to 4, which every record has.
ghost use Rattle.std.specs.Prelude.{◌≡◌};
ghost use Rattle.record.specs.Reading.{stood, ends_walk, ends_read, front_walk, front_read};

use crate::dateless::{CLOCKS, FROM, TO, VALUE};
use crate::faults::{Fault, FaultKind};
use crate::numbers::{clock_at, number_at};
use crate::reader::next_at;
use ground::clocks::{DestinationClock, SourceClock};
use ground::limits::MOST_VALUE;

// What fields 1 and 2 say, and the byte after them.
#[derive(Clone, Copy)]
pub struct Ends {
    pub from: usize,
    pub to: usize,
    pub at: usize,
}

// What fields 1 to 4 say, and the byte after them.
#[derive(Clone, Copy)]
pub struct Front {
    pub from: usize,
    pub to: usize,
    pub value: u64,
    pub source: SourceClock,
    pub destination: DestinationClock,
    pub at: usize,
}

// Fields 1 and 2: from and to.
#[tactic(auto, using(crate::proofs::Fronts::ends_stop))]
fn ends_of(bytes: &[u8]) -> Result<Ends, Fault>
    ensures { ends_walk bytes.now ≡ stood ends_read result }
{
    let second = next_at(bytes, 0, FROM)?;
    let from = number_at(bytes, 3, 1);
    if 15 < from {
        return Err(Fault {
            kind: FaultKind::UnsoundNumber,
            at: 0,
        });
    }
    let at = next_at(bytes, second, TO)?;
    let to = number_at(bytes, second + 3, 1);
    if 15 < to || from == to {
        return Err(Fault {
            kind: FaultKind::UnsoundNumber,
            at: second,
        });
    }
    Ok(Ends {
        from: from as usize,
        to: to as usize,
        at,
    })
}

// Fields 1 to 4: from and to, value, clocks.
#[tactic(auto, using(crate::proofs::Fronts::front_stops))]
pub(crate) fn front_of(bytes: &[u8]) -> Result<Front, Fault>
    ensures { front_walk bytes.now ≡ stood front_read result }
{
    let ends = ends_of(bytes)?;
    let clocks = next_at(bytes, ends.at, VALUE)?;
    let value = number_at(bytes, ends.at + 3, 8);
    if MOST_VALUE < value {
        return Err(Fault {
            kind: FaultKind::UnsoundNumber,
            at: ends.at,
        });
    }
    let at = next_at(bytes, clocks, CLOCKS)?;
    Ok(Front {
        from: ends.from,
        to: ends.to,
        value,
        source: SourceClock(clock_at(bytes, clocks + 3)),
        destination: DestinationClock(clock_at(bytes, clocks + 7)),
        at,
    })
}
