// A record written into a lent buffer.
ghost use Rattle.std.specs.Prelude.{◌≡◌, ◌≤◌, length, IfOk};
ghost use Rattle.ground.specs.Tested.{tested};
ghost use Rattle.record.specs.Dateless.{record_of};
ghost use Rattle.record.specs.Sheet.{HasRoom, Puts};
ghost use Rattle.record.specs.Writing.{held_size, write_answer, WritesGiven};

use crate::dateless::{CLOCKS, FROM, SLOT, TO, TOKEN, VALUE};
use crate::putting::Sheet;
use ground::answers::DONE;
use ground::refusal::Refusal;
use ground::told::Told;
use rules::held::Held;
use rules::message::Message;
use station::sound::message_is_sound;

// The bytes of a field that may be missing.
fn held_size<H: Held>(held: Option<H>) -> usize
    ensures { (result ≡ held_size held) × (result ≤ 19) }
{
    if held.is_some() { 19 } else { 0 }
}

// The front is 30 bytes.
#[tactic(auto, using(crate::proofs::Lengths::size))]
fn record_size(m: Message) -> usize
    ensures { result ≡ length (record_of m) }
{
    30 + held_size(m.slot) + held_size(m.token)
}

// A message's record, field by field.
#[tactic(auto, using(crate::proofs::Sheets::room_first, crate::proofs::Lengths::as_put))]
fn put_record(sheet: &mut Sheet, m: Message)
    requires { HasRoom sheet.old (record_of m) }
    ensures { Puts sheet.old (record_of m) sheet.new }
{
    sheet.field(FROM, m.from as u64);
    sheet.field(TO, m.to as u64);
    sheet.field(VALUE, m.value);
    sheet.clocks_field(CLOCKS, m.source, m.destination);
    sheet.held_field(SLOT, m.slot);
    sheet.held_field(TOKEN, m.token);
}

// The size of a message's record, where it can be written in this room.
fn test_write(m: Message, room: usize) -> Result<usize, Refusal>
    ensures answer { tested result ≡ write_answer m room }
    ensures fits { IfOk result (λ size. (size ≡ length (record_of m)) × (size ≤ room)) }
{
    if !message_is_sound(m) {
        return Err(Refusal::NoRecord);
    }
    let size = record_size(m);
    if room < size {
        return Err(Refusal::ShortBuffer);
    }
    Ok(size)
}

// A given message: refused by 9 where it is not sound, by 14 where the buffer is shorter than its
// record.
#[tactic(auto, using(crate::proofs::Showing::refused_writes, ground::proofs::Stores::in_front_lem))]
pub fn write(m: Message, buffer: &mut [u8]) -> Told
    ensures { WritesGiven m buffer.old result buffer.new }
{
    match test_write(m, buffer.len()) {
        Ok(size) => {
            let mut sheet = Sheet::new(buffer);
            put_record(&mut sheet, m);
            Told {
                answer: DONE,
                result: size as u64,
            }
        }
        Err(refusal) => Told {
            answer: refusal.number(),
            result: 0,
        },
    }
}
