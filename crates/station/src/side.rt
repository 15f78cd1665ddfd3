// The part of a station that the five rules see, taken out and put back.
ghost use Rattle.std.specs.Prelude.{◌≡◌, ◌<◌};
ghost use Rattle.ground.specs.Limits.{most_stations};
ghost use Rattle.station.specs.Side.{side_for, put_side};

use crate::held::PeerCell;
use crate::station::Station;
use rules::side::Side;

// The side of a station that is turned to station k.
pub(crate) fn side_for(s: Station, k: usize) -> Side
    requires { k < most_stations }
    ensures { result ≡ side_for s k }
{
    Side {
        value: s.value,
        source: s.source,
        destination: s.destination,
        slot: s.slots[k].held,
        token: s.tokens[k].held,
    }
}

// The station with that side put anew.
pub(crate) fn put_side(s: Station, k: usize, x: Side) -> Station
    requires { k < most_stations }
    ensures { result ≡ put_side s k x }
{
    let mut next = s;
    next.value = x.value;
    next.source = x.source;
    next.destination = x.destination;
    next.slots[k] = PeerCell { held: x.slot };
    next.tokens[k] = PeerCell { held: x.token };
    next
}
