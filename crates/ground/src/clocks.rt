// The two clocks. Each is a type of its own, so that one kind is never compared with the other.
ghost use Rattle.std.specs.Prelude.{◌≡◌};
ghost use Rattle.ground.specs.Clocks.{source_in_range, source_above, source_same, source_before_end, source_next, destination_in_range, destination_above, destination_same, destination_before_end, destination_next};

use crate::limits::LAST_CLOCK;

// Advanced when a station makes a token.
#[derive(Clone, Copy, Debug, PartialEq, Eq, PartialOrd, Ord)]
pub struct SourceClock(pub u32);

// Advanced when a station opens a slot.
#[derive(Clone, Copy, Debug, PartialEq, Eq, PartialOrd, Ord)]
pub struct DestinationClock(pub u32);

impl SourceClock {
    // True of every such clock, since its type has no other number.
    pub fn in_range(self) -> bool
        ensures { result ≡ source_in_range self }
    {
        self.0 <= LAST_CLOCK
    }

    pub fn is_above(self, other: SourceClock) -> bool
        ensures { result ≡ source_above self other }
    {
        other < self
    }

    pub fn equals(self, other: SourceClock) -> bool
        ensures { result ≡ source_same self other }
    {
        self == other
    }

    pub fn before_end(self) -> bool
        ensures { result ≡ source_before_end self }
    {
        self.0 < LAST_CLOCK
    }

    // One step on; at its end the clock stays.
    pub fn next(self) -> SourceClock
        ensures { result ≡ source_next self }
    {
        SourceClock(self.0.saturating_add(1))
    }
}

impl DestinationClock {
    // True of every such clock, since its type has no other number.
    pub fn in_range(self) -> bool
        ensures { result ≡ destination_in_range self }
    {
        self.0 <= LAST_CLOCK
    }

    pub fn is_above(self, other: DestinationClock) -> bool
        ensures { result ≡ destination_above self other }
    {
        other < self
    }

    pub fn equals(self, other: DestinationClock) -> bool
        ensures { result ≡ destination_same self other }
    {
        self == other
    }

    pub fn before_end(self) -> bool
        ensures { result ≡ destination_before_end self }
    {
        self.0 < LAST_CLOCK
    }

    // One step on; at its end the clock stays.
    pub fn next(self) -> DestinationClock
        ensures { result ≡ destination_next self }
    {
        DestinationClock(self.0.saturating_add(1))
    }
}
