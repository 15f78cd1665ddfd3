// One station on bytes: its message for another station written, a record received.
ghost use Rattle.std.specs.Prelude.{◌≡◌};
ghost use Rattle.record.specs.AtStation.{WritesFor, receive_bytes_of};

use crate::reading::read;
use crate::writing::write;
use ground::answers::DONE;
use ground::told::Told;
use station::outcome::Outcome;
use station::station::Station;

// Writes a station's message for another station: refused by 1, 2, 3, 14.
pub fn write_message(s: Station, to: u64, buffer: &mut [u8]) -> Told
    ensures { WritesFor s to buffer.old result buffer.new }
{
    let shown = station::message_for(s, to);
    if shown.answer != DONE {
        return Told {
            answer: shown.answer,
            result: 0,
        };
    }
    write(shown.message, buffer)
}

// Lets a station take a record: refused by 1, 9, 2, 11, 10. Where the bytes are no record, what was
// read is no sound message.
#[tactic(auto, unfolding(crate::specs::AtStation::receive_bytes_of))]
pub fn receive_bytes(s: Station, bytes: &[u8]) -> Outcome
    ensures { result ≡ receive_bytes_of s bytes.now }
{
    station::receive(s, read(bytes).message)
}
