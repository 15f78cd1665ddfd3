// What an entry point tells: the numbered answer, the result, the report, and the station as it
// then is.
ghost use Rattle.std.specs.Prelude.{◌≡◌};
ghost use Rattle.ground.specs.Tested.{number_of};
ghost use Rattle.station.specs.Outcome.{refused};

use crate::station::Station;
use ground::refusal::Refusal;
use rules::report::{Report, no_report};

#[derive(Clone, Copy)]
pub struct Outcome {
    pub answer: u8,
    pub result: u64,
    pub report: Report,
    pub station: Station,
}

// The one place where a refusal is made: result 0, an empty report, the station as it was lent.
pub(crate) fn refuse(refusal: Refusal, s: Station) -> Outcome
    ensures { result ≡ refused (number_of refusal) s }
{
    Outcome {
        answer: refusal.number(),
        result: 0,
        report: no_report(),
        station: s,
    }
}
