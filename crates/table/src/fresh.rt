// A fresh table.
ghost use Rattle.std.specs.Prelude.{◌≡◌, ◌≤◌};
ghost use Rattle.ground.specs.Limits.{most_stations};
ghost use Rattle.table.specs.Fresh.{blank_table, fresh_table_of, seats_to};

use crate::stepped::Stepped;
use crate::table::Table;
use ground::answers::DONE;
use ground::limits::MOST_STATIONS;
use ground::refusal::Refusal;
use pool::places::{MOST_PLACES, Place};
use rules::report::no_report;
use station::sound::count_is_sound;
use station::station::Station;
use station::steps::blank_station;

// Fresh stations at the numbers below the count.
#[tactic(auto, unfolding(crate::specs::Fresh::seats_to))]
fn fresh_seats(count: usize) -> [Station; MOST_STATIONS]
    requires { count ≤ most_stations }
    ensures { result ≡ seats_to count count }
{
    let mut stations = [blank_station(0, 0); MOST_STATIONS];
    for k in 0..count {
        stations[k] = blank_station(k, count);
    }
    stations
}

fn blank_table(count: usize) -> Table
    requires { count ≤ most_stations }
    ensures { result ≡ blank_table count }
{
    Table {
        count,
        stations: fresh_seats(count),
        pool: [Place { waiting: None }; MOST_PLACES],
    }
}

// A table with nothing in it: refused by 1.
#[tactic(auto, unfolding(crate::specs::Fresh::fresh_table_of))]
pub fn fresh_table(count: u64) -> Stepped
    ensures { result ≡ fresh_table_of count }
{
    if !count_is_sound(count) {
        return Stepped {
            answer: Refusal::NotSound.number(),
            result: 0,
            report: no_report(),
            table: blank_table(0),
        };
    }
    Stepped {
        answer: DONE,
        result: 0,
        report: no_report(),
        table: blank_table(count as usize),
    }
}
