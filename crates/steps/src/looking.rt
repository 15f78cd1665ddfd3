// What of a table a step looks at. An index that is too large is looked up as 0: the step is then
// refused, whatever stands there.
ghost use Rattle.std.specs.Prelude.{◌≡◌, ◌<◌};
ghost use Rattle.ground.specs.Limits.{most_stations};
ghost use Rattle.station.specs.Side.{side_for};
ghost use Rattle.steps.specs.Looking.{below, place_looked_at, looked_at, ends_of, seat_looked_at, free_for};
ghost use Rattle.pool.specs.Pool.{most_places};

use crate::asked::Step;
use crate::taken::lowest_empty;
use ground::limits::MOST_STATIONS;
use pool::places::MOST_PLACES;
use rules::message::Message;
use rules::side::Side;
use station::station::Station;

// A station and a peer of it.
#[derive(Clone, Copy)]
pub struct Looked {
    pub station: usize,
    pub peer: usize,
}

fn index_below(n: u64, limit: usize) -> usize
    ensures { result ≡ below n limit }
{
    if n < limit as u64 { n as usize } else { 0 }
}

fn look(station: u64, peer: u64) -> Looked
    ensures { result ≡ looked_at station peer }
{
    Looked {
        station: index_below(station, MOST_STATIONS),
        peer: index_below(peer, MOST_STATIONS),
    }
}

// The ends of the message that waits.
fn ends_of(waiting: Option<Message>) -> Looked
    ensures { result ≡ ends_of waiting }
{
    match waiting {
        Some(m) => look(m.to as u64, m.from as u64),
        None => look(0, 0),
    }
}

// The place that a step looks at.
pub(crate) fn place_looked_at(asked: Option<Step>) -> usize
    ensures { result ≡ below (place_looked_at asked) most_places }
{
    match asked {
        Some(Step::Deliver(p) | Step::Lose(p)) => index_below(p, MOST_PLACES),
        _ => 0,
    }
}

// The station and the peer that a step looks at, for what waits at the place that it looks at.
pub(crate) fn seat_looked_at(asked: Option<Step>, waiting: Option<Message>) -> Looked
    ensures { result ≡ seat_looked_at asked waiting }
{
    match asked {
        Some(Step::Add(k, _) | Step::Draw(k, _)) => look(k, 0),
        Some(Step::Send(from, to)) => look(from, to),
        Some(Step::Deliver(_)) => ends_of(waiting),
        _ => look(0, 0),
    }
}

// The side that a station turns to the peer that a step looks at.
pub(crate) fn side_looked_at(s: &Station, j: usize) -> Side
    requires { j < most_stations }
    ensures { result ≡ side_for s.now j }
{
    Side {
        value: s.value,
        source: s.source,
        destination: s.destination,
        slot: s.slots[j].held,
        token: s.tokens[j].held,
    }
}

// Only a send has the lowest-numbered empty place searched.
pub(crate) fn free_for(asked: Option<Step>, taken: &[bool; MOST_PLACES]) -> usize
    ensures { result ≡ free_for asked taken.now }
{
    match asked {
        Some(Step::Send(_, _)) => lowest_empty(taken),
        _ => MOST_PLACES,
    }
}
