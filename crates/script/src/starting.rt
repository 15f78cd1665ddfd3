// A script started: its first line read, and the run that its other lines are done in.
ghost use Rattle.std.specs.Prelude.{◌≡◌};
ghost use Rattle.ground.specs.Tested.{number_of};
ghost use Rattle.script.specs.Starting.{not_started, PutsAnswer, started_of, started_with};

use crate::limits::{MOST_BYTES, STEP_ROOM};
use crate::lines::stations_of;
use crate::printing::Page;
use crate::reading::{line_at, past_line};
use ground::answers::DONE;
use ground::refusal::Refusal;
use ground::told::Told;
use station::sound::count_is_sound;
use table::fresh::fresh_table;
use table::table::Table;

// The table, the position and the number of the next step, and whether all is put.
#[derive(Clone, Copy)]
pub struct Run {
    pub table: Table,
    pub at: usize,
    pub number: u64,
    pub finished: bool,
}

// The numbered answer, and the run before its first step.
#[derive(Clone, Copy)]
pub struct Started {
    pub answer: u8,
    pub result: u64,
    pub run: Run,
}

// The run of a script before its first step: refused by 13, 12, 1.
#[tactic(auto, unfolding(crate::specs::Starting::started_of))]
fn begin(script: &[u8]) -> Result<Run, Refusal>
    ensures { started_with result ≡ started_of script.now }
{
    if MOST_BYTES < script.len() {
        return Err(Refusal::LongScript);
    }
    let count = stations_of(line_at(script, 0)).ok_or(Refusal::BadLine)?;
    if !count_is_sound(count) {
        return Err(Refusal::NotSound);
    }
    Ok(Run {
        table: fresh_table(count).table,
        at: past_line(script, 0),
        number: 1,
        finished: false,
    })
}

// A script that is refused hands back every number 0 and nothing held: no station is a bad count,
// so that the table is the one of such a refusal.
#[tactic(auto, unfolding(table::specs::Fresh::fresh_table_of))]
fn not_started(refusal: Refusal) -> Started
    ensures { result ≡ not_started (number_of refusal) }
{
    Started {
        answer: refusal.number(),
        result: 0,
        run: Run {
            table: fresh_table(0).table,
            at: 0,
            number: 0,
            finished: true,
        },
    }
}

// The first line read: refused by 13, 12, 1.
pub fn start(script: &[u8]) -> Started
    ensures { result ≡ started_of script.now }
{
    match begin(script) {
        Ok(run) => Started {
            answer: DONE,
            result: 0,
            run,
        },
        Err(refusal) => not_started(refusal),
    }
}

// The line of a script that is refused: refused itself by 14, where there is no room for the
// longest line.
pub fn put_answer(answer: u8, out: &mut [u8]) -> Told
    ensures { PutsAnswer answer out.old result out.new }
{
    if out.len() < STEP_ROOM {
        return Told {
            answer: Refusal::ShortBuffer.number(),
            result: 0,
        };
    }
    let mut page = Page::new(out);
    page.says(0, u64::from(answer), 0);
    Told {
        answer: DONE,
        result: page.at as u64,
    }
}
