// The closing lines put into a lent buffer.
ghost use Rattle.std.specs.Prelude.{◌≡◌, true, ◌+◌, ◌≤◌, length};
ghost use Rattle.std.proofs.lemmas.List.Edits.{sets};
ghost use Rattle.ground.specs.Limits.{most_stations};
ghost use Rattle.table.specs.Sound.{table_sound};
ghost use Rattle.script.specs.Page.{HasRoom, Puts};
ghost use Rattle.script.specs.Script.{closing, station_lines};
ghost use Rattle.script.specs.Closing.{closing_room, seat_line};

use crate::printing::Page;
use station::station::Station;
use table::table::Table;
use table::way::{at_stations, on_the_way};

// A station's number, its value and its two clocks on a line.
fn put_station(page: &mut Page, k: usize, s: Station)
    requires { HasRoom page.old 128 }
    ensures { Puts page.old (seat_line k s) page.new }
{
    page.named(b"station ", k as u64);
    page.named(b" value ", s.value);
    page.named(b" source ", u64::from(s.source.0));
    page.last(b" destination ", u64::from(s.destination.0));
}

// A line for each station of a table.
fn put_stations(page: &mut Page, t: Table)
    requires { (t.count ≤ most_stations) × HasRoom page.old closing_room }
    ensures { Puts page.old (station_lines t t.count) page.new }
{
    for (k, s) in t.stations[..t.count].iter().enumerate() {
        put_station(page, k, *s);
    }
}

// The closing lines of a sound table. Answers how many bytes were put.
pub(crate) fn put_closing(out: &mut [u8], t: Table) -> usize
    requires { (table_sound t ≡ true) × (closing_room ≤ length out.old) }
    ensures { (result ≡ length (closing t)) × (out.new ≡ sets out.old 0 (closing t)) }
{
    let way = on_the_way(t).result;
    let held = at_stations(t).result;
    let mut page = Page::new(out);
    put_stations(&mut page, t);
    page.way(way);
    page.total(held + way);
    page.at
}
