// The test of a table's soundness, proved equal to its definition.
ghost use Rattle.std.specs.Prelude.{◌≡◌};
ghost use Rattle.ground.specs.Limits.{most_stations};
ghost use Rattle.ground.specs.Below.{all_below};
ghost use Rattle.pool.specs.Pool.{most_places, place_in};
ghost use Rattle.table.specs.Table.{station_in};
ghost use Rattle.table.specs.Sound.{seat_sound, place_sound, table_sound};

use crate::table::Table;
use ground::limits::{LEAST_STATIONS, MOST_STATIONS};
use pool::places::{MOST_PLACES, Place};
use rules::message::Message;
use station::sound::{message_is_sound, station_is_sound};
use station::station::Station;

// A station at its place in a table of count stations.
fn seat_is_sound(s: Station, k: usize, count: usize) -> bool
    ensures { result ≡ seat_sound s k count }
{
    count <= k || station_is_sound(s) && s.number == k && s.count == count
}

fn place_is_sound(waiting: Option<Message>, count: usize) -> bool
    ensures { result ≡ place_sound waiting count }
{
    waiting.is_none_or(|m| message_is_sound(m) && m.from < count && m.to < count)
}

fn seats_are_sound(stations: &[Station; MOST_STATIONS], count: usize) -> bool
    ensures { result ≡ all_below (λ k. seat_sound (station_in stations.now k) k count) most_stations }
{
    stations
        .iter()
        .enumerate()
        .all(|(k, s)| seat_is_sound(*s, k, count))
}

fn places_are_sound(pool: &[Place; MOST_PLACES], count: usize) -> bool
    ensures { result ≡ all_below (λ p. place_sound (place_in pool.now p) count) most_places }
{
    pool.iter()
        .all(|place| place_is_sound(place.waiting, count))
}

// So that who holds a table can test it once and then do steps, which keep it sound.
#[tactic(auto, unfolding(crate::specs::Sound::table_sound))]
pub fn table_is_sound(t: Table) -> bool
    ensures { result ≡ table_sound t }
{
    LEAST_STATIONS <= t.count
        && t.count <= MOST_STATIONS
        && seats_are_sound(&t.stations, t.count)
        && places_are_sound(&t.pool, t.count)
}
