// A record read field by field, front to back: its message, or the first fault and its place.
ghost use Rattle.std.specs.Prelude.{◌≡◌};
ghost use Rattle.record.specs.Reading.{walked};

use crate::dateless::{SLOT, TOKEN};
use crate::faults::{Fault, FaultKind};
use crate::front::front_of;
use crate::held::held_after;
use rules::message::Message;
use station::sound::{slot_is_sound, token_is_sound};

// The message and the record's end.
#[tactic(auto, using(crate::proofs::Whole::walking))]
pub(crate) fn walk(bytes: &[u8]) -> Result<(Message, usize), Fault>
    ensures { result ≡ walked bytes.now }
{
    let front = front_of(bytes)?;
    let (slot, next) = held_after(bytes, front.at, SLOT)?;
    if !slot_is_sound(slot, front.destination) {
        return Err(Fault {
            kind: FaultKind::UnsoundNumber,
            at: front.at,
        });
    }
    let (token, end) = held_after(bytes, next, TOKEN)?;
    if !token_is_sound(token, front.source) {
        return Err(Fault {
            kind: FaultKind::UnsoundNumber,
            at: next,
        });
    }
    if end != bytes.len() {
        return Err(Fault {
            kind: FaultKind::Extra,
            at: end,
        });
    }
    let message = Message {
        from: front.from,
        to: front.to,
        value: front.value,
        source: front.source,
        destination: front.destination,
        slot,
        token,
    };
    Ok((message, end))
}
