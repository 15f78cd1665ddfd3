// A script's output put into a lent buffer: the lines of as many steps as have room there, and in a
// last turn the closing lines.
ghost use Rattle.std.specs.Prelude.{◌≡◌, true, ◌≤◌, length};
ghost use Rattle.std.proofs.lemmas.List.Edits.{sets};
ghost use Rattle.script.specs.Closing.{closing_room};
ghost use Rattle.script.specs.Putting.{at_once, closing_piece, piece_told, PutsLines, run_sound, steps_piece, empty_piece};

use crate::closing::put_closing;
use crate::limits::{CLOSING_ROOM, MOST_AT_ONCE, MOST_BYTES, STEP_ROOM};
use crate::reading::read_lines;
use crate::starting::Run;
use crate::telling::put_told;
use ground::answers::DONE;
use ground::refusal::Refusal;
use table::sound::table_is_sound;

// The numbered answer, how many bytes were put, and the run past what was put.
#[derive(Clone, Copy)]
pub struct PutLines {
    pub answer: u8,
    pub result: u64,
    pub run: Run,
}

// The table is sound, and the number one that a script's steps reach.
fn run_is_sound(run: Run) -> bool
    ensures { result ≡ run_sound run }
{
    table_is_sound(run.table) && run.number <= MOST_BYTES as u64
}

// Nothing is put, and the run stays as it is.
fn stay(answer: u8, run: Run) -> PutLines
    ensures { result ≡ piece_told (empty_piece answer run) }
{
    PutLines {
        answer,
        result: 0,
        run,
    }
}

// How many steps a buffer of this length has lines of at once.
fn at_once(room: usize) -> usize
    ensures { result ≡ at_once room }
{
    (room / STEP_ROOM).min(MOST_AT_ONCE)
}

// So that a proof sees how many there are, and not each of them.
fn zeros<const N: usize>() -> [u64; N]
    ensures { N ≡ length result }
{
    [0; N]
}

// The lines of the next steps: lines to numbers, numbers to what was told, and that to lines.
fn put_steps(script: &[u8], run: Run, out: &mut [u8]) -> PutLines
    requires { run_sound run ≡ true }
    ensures { (result ≡ piece_told (steps_piece script.now run (at_once (length out.old)))) × (out.new ≡ sets out.old 0 (steps_piece script.now run (at_once (length out.old))).bytes) }
{
    // three numbers for each of 1,024 lines, and five for each of 1,024 steps
    let mut codes = zeros::<3072>();
    let mut told = zeros::<5120>();
    let read = read_lines(script, run.at, at_once(out.len()), &mut codes);
    let ran = steps::run(run.table, &codes[..3 * read.lines], &mut told);
    let size = put_told(&told, read.lines, run.number, out);
    PutLines {
        answer: DONE,
        result: size as u64,
        run: Run {
            table: ran.table,
            at: read.at,
            number: run.number + read.lines as u64,
            finished: false,
        },
    }
}

// The closing lines.
fn put_end(run: Run, out: &mut [u8]) -> PutLines
    requires { (run_sound run ≡ true) × (closing_room ≤ length out.old) }
    ensures { (result ≡ piece_told (closing_piece run)) × (out.new ≡ sets out.old 0 (closing_piece run).bytes) }
{
    let size = put_closing(out, run.table);
    PutLines {
        answer: DONE,
        result: size as u64,
        run: Run {
            finished: true,
            ..run
        },
    }
}

// The next lines of a run that is not finished: refused by 1, 14.
pub fn put_lines(script: &[u8], run: Run, out: &mut [u8]) -> PutLines
    ensures { PutsLines script.now run out.old result out.new }
{
    if !run_is_sound(run) {
        return stay(Refusal::NotSound.number(), run);
    }
    if out.len() < CLOSING_ROOM {
        return stay(Refusal::ShortBuffer.number(), run);
    }
    if run.finished {
        return stay(DONE, run);
    }
    if run.at < script.len() {
        return put_steps(script, run, out);
    }
    put_end(run, out)
}
