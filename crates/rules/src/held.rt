// A slot and a token, and what they have in common.
ghost use Rattle.std.specs.Prelude.{◌≡◌};

use ground::clocks::{DestinationClock, SourceClock};

// What a station asks of another: opened by rule 3.
#[derive(Clone, Copy, Debug, PartialEq, Eq)]
pub struct Slot {
    pub source: SourceClock,
    pub destination: DestinationClock,
    pub quantity: u64,
}

// What a station gives to another: made by rule 5.
#[derive(Clone, Copy, Debug, PartialEq, Eq)]
pub struct Token {
    pub source: SourceClock,
    pub destination: DestinationClock,
    pub quantity: u64,
}

// Two clocks and a quantity.
#[derive(Clone, Copy, Debug, PartialEq, Eq)]
pub struct Terms {
    pub source: SourceClock,
    pub destination: DestinationClock,
    pub quantity: u64,
}

// What is held of a peer is held on terms, and is nothing beyond them.
pub trait Held: Copy {
    ghost use Rattle.rules.specs.declared.held.Terms.{Terms};

    ghost terms_of: { Self → Terms };

    ghost held_on: { Terms → Self };

    fn terms(self) -> Terms
        ensures { result ≡ terms_of self };

    fn on(terms: Terms) -> Self
        ensures { result ≡ held_on terms };
}
