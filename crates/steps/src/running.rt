// Steps one after the other in one call: as numbers in, what each told as numbers out.
ghost use Rattle.std.specs.Prelude.{◌≡◌, true, [], ◌∷◌, ◌+◌, ◌*◌, ◌<◌, ◌≤◌, min, length};
ghost use Rattle.std.proofs.lemmas.List.Edits.{sets};
ghost use Rattle.ground.specs.Limits.{most_stations};
ghost use Rattle.rules.specs.Report.{rules_of};
ghost use Rattle.station.specs.Side.{put_side};
ghost use Rattle.station.specs.Steps.{put_stock};
ghost use Rattle.steps.specs.Running.{asked_in, ran_by, all_told, Runs};
ghost use Rattle.table.specs.Sound.{table_sound};

use crate::asked::asked_by;
use crate::looking::{free_for, place_looked_at, seat_looked_at, side_looked_at};
use crate::planning::{Change, Plan, plan_at};
use crate::taken::flags_of;
use ground::answers::DONE;
use ground::refusal::Refusal;
use pool::places::Place;
use rules::report::rules_of;
use rules::side::Side;
use station::held::PeerCell;
use station::station::Station;
use table::sound::table_is_sound;
use table::table::Table;

// The numbered answer, how many steps were done, and the table as it then is.
#[derive(Clone, Copy)]
pub struct Ran {
    pub answer: u8,
    pub result: u64,
    pub table: Table,
}

// Another value and another intake.
fn put_stock(s: &mut Station, value: u64, intake: u64)
    ensures { s.new ≡ put_stock s.old value intake }
{
    s.value = value;
    s.intake = intake;
}

// Another side to station j.
fn put_side(s: &mut Station, j: usize, x: Side)
    requires { j < most_stations }
    ensures { s.new ≡ put_side s.old j x }
{
    s.value = x.value;
    s.source = x.source;
    s.destination = x.destination;
    s.slots[j] = PeerCell { held: x.slot };
    s.tokens[j] = PeerCell { held: x.token };
}

// Five numbers.
fn put_told(told: &mut [u64], at: usize, plan: &Plan)
    requires { at + 5 ≤ length told.old }
    ensures { told.new ≡ sets told.old at (plan.now.answer ∷ plan.now.result ∷ rules_of plan.now.report ∷ plan.now.report.opened ∷ plan.now.report.made ∷ []) }
{
    told[at] = plan.answer as u64;
    told[at + 1] = plan.result;
    told[at + 2] = rules_of(plan.report);
    told[at + 3] = plan.report.opened;
    told[at + 4] = plan.report.made;
}

// The loop holds the table: a table is large, and a call copies what it is given. So no call in the
// loop is given the table: a call is lent the one station that it reads or changes, and a place is
// put right here. Which places are taken is kept beside it, since a search of 64 flags is shorter
// than one of 64 messages.
fn run_sound(mut table: Table, codes: &[u64], told: &mut [u64], steps: usize) -> Ran
    requires { (table_sound table ≡ true) × (3 * steps ≤ length codes.now) × (5 * steps ≤ length told.old) }
    ensures { (result ≡ ran_by table steps codes.now) × (told.new ≡ sets told.old 0 (all_told table (asked_in steps codes.now))) }
{
    let mut taken = flags_of(&table.pool);
    for n in 0..steps {
        let asked = asked_by(codes[3 * n], codes[3 * n + 1], codes[3 * n + 2]);
        let waiting = table.pool[place_looked_at(asked)].waiting;
        let free = free_for(asked, &taken);
        let seat = seat_looked_at(asked, waiting);
        let (k, j) = (seat.station, seat.peer);
        let x = side_looked_at(&table.stations[k], j);
        let intake = table.stations[k].intake;
        let plan = plan_at(table.count, asked, intake, x, waiting, free);
        match plan.change {
            Change::Nothing => {}
            Change::AtStock(value, intake) => put_stock(&mut table.stations[k], value, intake),
            Change::AtSide(side) => put_side(&mut table.stations[k], j, side),
            Change::AtPlace(p, w) => {
                table.pool[p] = Place { waiting: w };
                taken[p] = w.is_some();
            }
        }
        put_told(told, 5 * n, &plan);
    }
    Ran {
        answer: DONE,
        result: steps as u64,
        table,
    }
}

// Refused by 1. Each step is refused, or done, as `step` would.
pub fn run(t: Table, codes: &[u64], told: &mut [u64]) -> Ran
    ensures { Runs t codes.now told.old result told.new }
{
    if !table_is_sound(t) {
        return Ran {
            answer: Refusal::NotSound.number(),
            result: 0,
            table: t,
        };
    }
    let steps = (codes.len() / 3).min(told.len() / 5);
    run_sound(t, codes, told, steps)
}
