// A step done: what it tells, and the table after it.
ghost use Rattle.std.specs.Prelude.{◌≡◌};
ghost use Rattle.steps.specs.Running.{report_of};
ghost use Rattle.steps.specs.Steps.{step_of};

use crate::asked::{Step, numbers_for};
use crate::running::run;
use ground::answers::DONE;
use rules::report::{Report, no_report};
use table::stepped::Stepped;
use table::table::Table;

// The report that a run told in three numbers.
fn report_of(rules: u64, opened: u64, made: u64) -> Report
    ensures { result ≡ report_of rules opened made }
{
    Report {
        rule1: rules % 2 == 1,
        rule2: rules / 2 % 2 == 1,
        rule3: rules / 4 % 2 == 1,
        rule4: rules / 8 % 2 == 1,
        rule5: rules / 16 % 2 == 1,
        opened,
        made,
    }
}

// One step of a table, as a run of one: refused by add 1, 2, 4, 5, 10; draw 1, 2, 4, 15; send 1, 2,
// 3, 6; deliver 1, 7, 8, 10; lose 1, 7, 8.
pub fn step(t: Table, step: Step) -> Stepped
    ensures { result ≡ step_of t step }
{
    let codes = numbers_for(Some(step));
    let mut told = [0; 5];
    let ran = run(t, &codes, &mut told);
    if ran.answer != DONE {
        return Stepped {
            answer: ran.answer,
            result: 0,
            report: no_report(),
            table: ran.table,
        };
    }
    let [answer, result, rules, opened, made] = told;
    Stepped {
        answer: (answer % 256) as u8,
        result,
        report: report_of(rules, opened, made),
        table: ran.table,
    }
}
