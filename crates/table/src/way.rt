// The sums that a table can be asked for.
ghost use Rattle.std.specs.Prelude.{◌≡◌, true, ◌<◌, IfOk};
ghost use Rattle.ground.specs.Refusals.{answer_of};
ghost use Rattle.ground.specs.Tested.{tested};
ghost use Rattle.table.specs.Sound.{table_sound};
ghost use Rattle.table.specs.Way.{travels, way_from, on_the_way, at_stations, sum_refusals, way_asked, stations_asked};

use crate::sound::table_is_sound;
use crate::table::Table;
use ground::answers::DONE;
use ground::refusal::Refusal;
use ground::told::Told;
use rules::held::{Slot, Token};
use rules::rules::clocks_agree;

// What of a token is on the way to a slot.
fn travels_to(token: Option<Token>, slot: Option<Slot>) -> u64
    ensures { result ≡ travels token slot }
{
    match (token, slot) {
        (Some(made), Some(open)) if clocks_agree(made, open) => made.quantity,
        _ => 0,
    }
}

// A table that was tested, and so has its sums within their limits.
#[derive(Clone, Copy)]
struct SoundTable<'a> {
    table: &'a Table,
    ghost sound: { table_sound table.now ≡ true },
}

impl<'a> SoundTable<'a> {
    fn test(table: &'a Table) -> Result<SoundTable<'a>, Refusal>
        ensures answer { tested result ≡ answer_of (sum_refusals table.now) }
        ensures held { IfOk result (λ s. s.table.now ≡ table.now) }
    {
        if !table_is_sound(*table) {
            return Err(Refusal::NotSound);
        }
        Ok(SoundTable { table })
    }

    // From station i to all others.
    #[tactic(auto, using(crate::proofs::Tables::count_most))]
    fn way_from(&self, i: usize) -> u64
        requires { i < self.now.table.now.count }
        ensures { result ≡ way_from self.now.table.now i }
    {
        let giver = &self.table.stations[i];
        (0..self.table.count)
            .map(|j| travels_to(giver.tokens[j].held, self.table.stations[j].slots[i].held))
            .sum()
    }

    fn on_the_way(&self) -> u64
        ensures { result ≡ on_the_way self.now.table.now }
    {
        (0..self.table.count).map(|i| self.way_from(i)).sum()
    }

    #[tactic(auto, using(crate::proofs::Tables::count_most))]
    fn at_stations(&self) -> u64
        ensures { result ≡ at_stations self.now.table.now }
    {
        self.table.stations[..self.table.count]
            .iter()
            .map(|s| s.value)
            .sum()
    }
}

// The sum on the way: refused by 1.
pub fn on_the_way(t: Table) -> Told
    ensures { result ≡ way_asked t }
{
    match SoundTable::test(&t) {
        Err(refusal) => Told {
            answer: refusal.number(),
            result: 0,
        },
        Ok(sound) => Told {
            answer: DONE,
            result: sound.on_the_way(),
        },
    }
}

// The passes at all stations: refused by 1.
pub fn at_stations(t: Table) -> Told
    ensures { result ≡ stations_asked t }
{
    match SoundTable::test(&t) {
        Err(refusal) => Told {
            answer: refusal.number(),
            result: 0,
        },
        Ok(sound) => Told {
            answer: DONE,
            result: sound.at_stations(),
        },
    }
}
