// The tests of soundness, each proved equal to its definition.
ghost use Rattle.std.specs.Prelude.{◌≡◌};
ghost use Rattle.ground.specs.Limits.{most_stations};
ghost use Rattle.ground.specs.Below.{all_below};
ghost use Rattle.station.specs.Sound.{slot_sound, token_sound, holds_nothing, cells_sound, count_sound, station_sound, message_sound};

use crate::station::Station;
use ground::clocks::{DestinationClock, SourceClock};
use ground::limits::{LEAST_STATIONS, MOST_INTAKE, MOST_STATIONS, MOST_VALUE};
use rules::held::{Slot, Token};
use rules::message::Message;

pub fn slot_is_sound(held: Option<Slot>, clock: DestinationClock) -> bool
    ensures { result ≡ slot_sound held clock }
{
    held.is_none_or(|slot| {
        1 <= slot.quantity
            && slot.quantity <= MOST_VALUE
            && slot.source.in_range()
            && slot.destination < clock
    })
}

pub fn token_is_sound(held: Option<Token>, clock: SourceClock) -> bool
    ensures { result ≡ token_sound held clock }
{
    held.is_none_or(|token| {
        token.quantity <= MOST_VALUE && token.destination.in_range() && token.source < clock
    })
}

fn holds_nothing(slot: Option<Slot>, token: Option<Token>) -> bool
    ensures { result ≡ holds_nothing slot token }
{
    slot.is_none() && token.is_none()
}

// What a station holds for each number up to 15.
#[tactic(auto, using(ground::proofs::Below::all_none, ground::proofs::Below::all_more))]
fn cells_are_sound(s: Station) -> bool
    ensures { result ≡ all_below (cells_sound s) most_stations }
{
    let mut sound = true;
    for k in 0..MOST_STATIONS {
        let slot = s.slots[k].held;
        let token = s.tokens[k].held;
        let kept = slot_is_sound(slot, s.destination) & token_is_sound(token, s.source);
        let peer = (k != s.number) & (k < s.count);
        sound = sound & kept & (peer | holds_nothing(slot, token));
    }
    sound
}

pub fn count_is_sound(count: u64) -> bool
    ensures { result ≡ count_sound count }
{
    LEAST_STATIONS as u64 <= count && count <= MOST_STATIONS as u64
}

#[tactic(auto, unfolding(crate::specs::Sound::station_sound))]
pub fn station_is_sound(s: Station) -> bool
    ensures { result ≡ station_sound s }
{
    LEAST_STATIONS <= s.count
        && s.count <= MOST_STATIONS
        && s.number < s.count
        && s.value <= MOST_VALUE
        && s.intake <= MOST_INTAKE
        && s.source.in_range()
        && s.destination.in_range()
        && cells_are_sound(s)
}

#[tactic(auto, unfolding(crate::specs::Sound::message_sound))]
pub fn message_is_sound(m: Message) -> bool
    ensures { result ≡ message_sound m }
{
    m.from <= 15
        && m.to <= 15
        && m.from != m.to
        && m.value <= MOST_VALUE
        && m.source.in_range()
        && m.destination.in_range()
        && slot_is_sound(m.slot, m.destination)
        && token_is_sound(m.token, m.source)
}
