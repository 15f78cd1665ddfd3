// A lent record and a position in it. Nothing is decided here: `take_at` does the work, on a slice
// and numbers.
ghost use Rattle.std.specs.Prelude.{◌≡◌};
ghost use Rattle.record.specs.Reading.{next_of};

use crate::faults::Fault;
use crate::fields::{Line, take_at};

#[derive(Clone, Copy)]
pub struct Reader<'a> {
    pub record: &'a [u8],
    pub at: usize,
}

impl<'a> Reader<'a> {
    pub(crate) fn new(bytes: &'a [u8], at: usize) -> Self
        ensures { (result.record ≡ bytes.entry) × (result.at ≡ at) }
    {
        Self { record: bytes, at }
    }

    // Takes the next field: past it, at the same byte where it is missing, or stopped by its fault.
    pub(crate) fn next(self, line: Line) -> Result<usize, Fault>
        ensures { result ≡ next_of self.entry.record.now self.entry.at line }
    {
        take_at(self.record, self.at, line)
    }
}

// The next field of a reader that stands at a position.
pub(crate) fn next_at(bytes: &[u8], at: usize, line: Line) -> Result<usize, Fault>
    ensures { result ≡ next_of bytes.now at line }
{
    Reader::new(bytes, at).next(line)
}
