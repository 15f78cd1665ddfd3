// A slot or a token as four numbers: present, source clock, destination clock, quantity.
ghost use Rattle.std.specs.Prelude.{◌≡◌, cond, ◌+◌, ◌≤◌, length};
ghost use Rattle.std.proofs.lemmas.List.Edits.{sets};
ghost use Rattle.ground.specs.Clocks.{clock_sound};
ghost use Rattle.quynhabet.specs.Layout.{four_numbers, four_at, four_fits, four_of, held_of};

use ground::clocks::{DestinationClock, SourceClock};
use rules::held::{Held, Terms};
use station::held::PeerCell;

#[derive(Clone, Copy, Default)]
pub(crate) struct Four {
    pub present: u64,
    pub source: u64,
    pub destination: u64,
    pub quantity: u64,
}

pub(crate) fn four_of<H: Held>(held: Option<H>) -> Four
    ensures { result ≡ four_of H.terms_of held }
{
    let Some(held) = held else {
        return Four::default();
    };
    let terms = held.terms();
    Four {
        present: 1,
        source: terms.source.0 as u64,
        destination: terms.destination.0 as u64,
        quantity: terms.quantity,
    }
}

// A clock's number, where it is not too wide for one.
pub(crate) fn clock_of(number: u64) -> Option<u32>
    ensures { result ≡ cond (clock_sound number) (Some number) None }
{
    u32::try_from(number).ok()
}

// What four numbers say is held. Numbers too wide for their field, or not 0 in what is not held,
// are neither a slot nor a token.
#[tactic(auto, unfolding(crate::specs::Layout::four_fits))]
pub(crate) fn cell_of<H: Held>(f: Four) -> Option<PeerCell<H>>
    ensures { result ≡ cond (four_fits f) (Some (record { held = held_of H.held_on f })) None }
{
    let source = SourceClock(clock_of(f.source)?);
    let destination = DestinationClock(clock_of(f.destination)?);
    let quantity = f.quantity;
    match f.present {
        0 if f.source == 0 && f.destination == 0 && quantity == 0 => Some(PeerCell { held: None }),
        1 => Some(PeerCell {
            held: Some(H::on(Terms {
                source,
                destination,
                quantity,
            })),
        }),
        _ => None,
    }
}

// The four numbers that stand at a position.
pub(crate) fn four_at(numbers: &[u64], at: usize) -> Four
    requires { at + 4 ≤ length numbers.now }
    ensures { result ≡ four_at numbers.now at }
{
    Four {
        present: numbers[at],
        source: numbers[at + 1],
        destination: numbers[at + 2],
        quantity: numbers[at + 3],
    }
}

// Four numbers put at a position.
pub(crate) fn put_four(numbers: &mut [u64], at: usize, f: Four)
    requires { at + 4 ≤ length numbers.old }
    ensures { numbers.new ≡ sets numbers.old at (four_numbers f) }
{
    numbers[at] = f.present;
    numbers[at + 1] = f.source;
    numbers[at + 2] = f.destination;
    numbers[at + 3] = f.quantity;
}
