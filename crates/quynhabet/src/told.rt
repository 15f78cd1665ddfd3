// What an export tells.
ghost use Rattle.std.specs.Prelude.{◌≡◌};
ghost use Rattle.ground.specs.Tested.{number_of};
ghost use Rattle.quynhabet.specs.Exports.{told_of, plain_told};

use ground::refusal::Refusal;
use rules::report::{Report, no_report, rules_of};

// The answer, the result, and the report: the rules that acted as a sum of 1, 2, 4, 8, 16, the
// quantity of a slot opened and that of a token made.
#[repr(C)]
#[derive(Clone, Copy)]
pub struct ToldNumbers {
    pub answer: u64,
    pub result: u64,
    pub rules: u64,
    pub opened: u64,
    pub made: u64,
}

pub(crate) fn told_of(answer: u8, res: u64, report: Report) -> ToldNumbers
    ensures { result ≡ told_of answer res report }
{
    ToldNumbers {
        answer: answer as u64,
        result: res,
        rules: rules_of(report),
        opened: report.opened,
        made: report.made,
    }
}

// Where there is no report.
pub(crate) fn plain_told(answer: u8, res: u64) -> ToldNumbers
    ensures { result ≡ plain_told answer res }
{
    told_of(answer, res, no_report())
}

// What is lent is no station, or no message.
pub(crate) fn refused(refusal: Refusal) -> ToldNumbers
    ensures { result ≡ plain_told (number_of refusal) 0 }
{
    plain_told(refusal.number(), 0)
}
