// A station as 134 numbers.
ghost use Rattle.std.specs.Prelude.{◌≡◌, cond, ◌+◌, ◌≤◌, length};
ghost use Rattle.std.proofs.lemmas.List.Edits.{sets};
ghost use Rattle.ground.specs.Below.{all_below};
ghost use Rattle.ground.specs.Limits.{most_stations};
ghost use Rattle.quynhabet.specs.Layout.{place_from, fits_at, station_fits, cells_of, station_of, cells_numbers, numbers_of};

use crate::fours::{cell_of, clock_of, four_at, four_of, put_four};
use ground::clocks::{DestinationClock, SourceClock};
use ground::limits::MOST_STATIONS;
use rules::held::Held;
use station::held::PeerCell;
use station::station::Station;

// What is held of each peer, by the fours that stand from a position on, where they all fit.
fn cells_of<H: Held>(numbers: &[u64], at: usize) -> Option<[PeerCell<H>; MOST_STATIONS]>
    requires { at + 64 ≤ length numbers.now }
    ensures { result ≡ cond (all_below (fits_at numbers.now (place_from at)) most_stations) (Some (cells_of H.held_on numbers.now (place_from at))) None }
{
    let mut cells = [PeerCell { held: None }; MOST_STATIONS];
    for (k, cell) in cells.iter_mut().enumerate() {
        *cell = cell_of(four_at(numbers, at + 4 * k))?;
    }
    Some(cells)
}

// The station that the numbers are, where they are one.
#[tactic(auto, using(crate::proofs::Fitting::fits_apart), unfolding(crate::specs::Layout::station_of))]
pub(crate) fn station_of(numbers: &[u64; 134]) -> Option<Station>
    ensures { result ≡ cond (station_fits numbers.now) (Some (station_of numbers.now)) None }
{
    Some(Station {
        number: numbers[0] as usize,
        count: numbers[1] as usize,
        value: numbers[2],
        intake: numbers[3],
        source: SourceClock(clock_of(numbers[4])?),
        destination: DestinationClock(clock_of(numbers[5])?),
        slots: cells_of(numbers, 6)?,
        tokens: cells_of(numbers, 70)?,
    })
}

// What is held of each peer put from a position on, as fours.
fn put_cells<H: Held>(numbers: &mut [u64], at: usize, cells: &[PeerCell<H>; MOST_STATIONS])
    requires { at + 64 ≤ length numbers.old }
    ensures { numbers.new ≡ sets numbers.old at (cells_numbers H.terms_of cells.now) }
{
    for (k, cell) in cells.iter().enumerate() {
        put_four(numbers, at + 4 * k, four_of(cell.held));
    }
}

pub(crate) fn numbers_of(s: Station) -> [u64; 134]
    ensures { result ≡ numbers_of s }
{
    let mut numbers = [0u64; 134];
    numbers[..6].copy_from_slice(&[
        s.number as u64,
        s.count as u64,
        s.value,
        s.intake,
        s.source.0 as u64,
        s.destination.0 as u64,
    ]);
    put_cells(&mut numbers, 6, &s.slots);
    put_cells(&mut numbers, 70, &s.tokens);
    numbers
}
