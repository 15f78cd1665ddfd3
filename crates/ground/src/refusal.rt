// Why something is refused, and the number that it is answered by.
ghost use Rattle.std.specs.Prelude.{◌≡◌};
ghost use Rattle.ground.specs.Tested.{number_of};

use crate::answers;

// One for each answer but 0, which is no refusal.
#[derive(Clone, Copy, Debug, PartialEq, Eq)]
pub enum Refusal {
    NotSound,
    NotBelowCount,
    SameStation,
    BadAmount,
    IntakeLimit,
    PoolFull,
    NoSuchPlace,
    EmptyPlace,
    NoRecord,
    ValueLimit,
    ForAnother,
    BadLine,
    LongScript,
    ShortBuffer,
    TooFew,
}

impl Refusal {
    // The number that it is answered by.
    pub fn number(self) -> u8
        ensures { result ≡ number_of self }
    {
        match self {
            Refusal::NotSound => answers::NOT_SOUND,
            Refusal::NotBelowCount => answers::NOT_BELOW_COUNT,
            Refusal::SameStation => answers::SAME_STATION,
            Refusal::BadAmount => answers::BAD_AMOUNT,
            Refusal::IntakeLimit => answers::INTAKE_LIMIT,
            Refusal::PoolFull => answers::POOL_FULL,
            Refusal::NoSuchPlace => answers::NO_SUCH_PLACE,
            Refusal::EmptyPlace => answers::EMPTY_PLACE,
            Refusal::NoRecord => answers::NO_RECORD,
            Refusal::ValueLimit => answers::VALUE_LIMIT,
            Refusal::ForAnother => answers::FOR_ANOTHER,
            Refusal::BadLine => answers::BAD_LINE,
            Refusal::LongScript => answers::LONG_SCRIPT,
            Refusal::ShortBuffer => answers::SHORT_BUFFER,
            Refusal::TooFew => answers::TOO_FEW,
        }
    }
}
