// What C and Rust link: each function of the proved library under its name in the archive, with
// the same promise.
#![tactic(auto)]

ghost use Rattle.std.specs.Prelude.{◌≡◌};
ghost use Rattle.quynhabet.specs.Exports.{Makes, check_of, Adds, Draws, Shows, Receives, Reads, WritesNumbers};

use quynhabet::exports;
use quynhabet::told::ToldNumbers;

// Makes a station with nothing in it: refused by 1, 2.
#[unsafe(no_mangle)]
pub extern "C" fn qb_station_fresh(number: u64, count: u64, station: &mut [u64; 134]) -> ToldNumbers
    ensures { Makes number count station.old result station.new }
{
    exports::qb_station_fresh(number, count, station)
}

// Whether the numbers are a sound station: refused by 1.
#[unsafe(no_mangle)]
pub extern "C" fn qb_station_check(station: &[u64; 134]) -> ToldNumbers
    ensures { result ≡ check_of station.now }
{
    exports::qb_station_check(station)
}

// Raises value and intake: refused by 1, 4, 5, 10.
#[unsafe(no_mangle)]
pub extern "C" fn qb_station_add(station: &mut [u64; 134], amount: u64) -> ToldNumbers
    ensures { Adds station.old amount result station.new }
{
    exports::qb_station_add(station, amount)
}

// Takes the amount, all or none of it: refused by 1, 4, 15.
#[unsafe(no_mangle)]
pub extern "C" fn qb_station_draw(station: &mut [u64; 134], amount: u64) -> ToldNumbers
    ensures { Draws station.old amount result station.new }
{
    exports::qb_station_draw(station, amount)
}

// Writes the station's message for another station as a record: refused by 1, 2, 3, 14.
#[unsafe(no_mangle)]
pub extern "C" fn qb_station_write(station: &[u64; 134], to: u64, out: &mut [u8]) -> ToldNumbers
    ensures { Shows station.now to out.old result out.new }
{
    exports::qb_station_write(station, to, out)
}

// Lets the station take a record: refused by 1, 9, 2, 11, 10.
#[unsafe(no_mangle)]
pub extern "C" fn qb_station_receive(station: &mut [u64; 134], bytes: &[u8]) -> ToldNumbers
    ensures { Receives station.old bytes.now result station.new }
{
    exports::qb_station_receive(station, bytes)
}

// Reads a record into a message: refused by 9.
#[unsafe(no_mangle)]
pub extern "C" fn qb_record_read(bytes: &[u8], message: &mut [u64; 13]) -> ToldNumbers
    ensures { Reads bytes.now message.old result message.new }
{
    exports::qb_record_read(bytes, message)
}

// Writes a message as a record: refused by 9, 14.
#[unsafe(no_mangle)]
pub extern "C" fn qb_record_write(message: &[u64; 13], out: &mut [u8]) -> ToldNumbers
    ensures { WritesNumbers message.now out.old result out.new }
{
    exports::qb_record_write(message, out)
}
