// A script's lines, found by the position that they start at, and read into numbers: three for each
// line.
ghost use Rattle.std.specs.Prelude.{◌≡◌, ◌+◌, ◌*◌, ◌≤◌, length, drop};
ghost use Rattle.std.proofs.lemmas.List.Edits.{sets};
ghost use Rattle.steps.specs.Running.{numbers_for};
ghost use Rattle.script.specs.Reading.{line_at, lines_from, numbers_for_all, past_line, lines_read};

use crate::lines::line_of;
use crate::words::cut_at;
use steps::asked::{Step, numbers_for};

// What is left of a script from a position on.
fn left_from(script: &[u8], at: usize) -> &[u8]
    ensures { result.now ≡ drop at script.now }
{
    &script[at.min(script.len())..]
}

// The line that starts at a position, without its line end.
pub(crate) fn line_at(script: &[u8], at: usize) -> &[u8]
    ensures { result.now ≡ line_at script.now at }
{
    cut_at(b'\n', left_from(script, at)).0
}

// The position past the line that starts at a position.
pub(crate) fn past_line(script: &[u8], at: usize) -> usize
    ensures { result ≡ past_line script.now at }
{
    script.len() - cut_at(b'\n', left_from(script, at)).1.len()
}

// The numbers of what is asked for, put from a place on.
fn put_asked(codes: &mut [u64], at: usize, asked: Option<Step>)
    requires { at + 3 ≤ length codes.old }
    ensures { codes.new ≡ sets codes.old at (numbers_for asked) }
{
    codes[at..at + 3].copy_from_slice(&numbers_for(asked));
}

// How many lines were read, and the position past them.
#[derive(Clone, Copy)]
pub struct Read {
    pub lines: usize,
    pub at: usize,
}

// Up to so many lines from a position on.
pub(crate) fn read_lines(script: &[u8], start: usize, most: usize, codes: &mut [u64]) -> Read
    requires { 3 * most ≤ length codes.old }
    ensures { (result ≡ lines_read most script.now start) × (codes.new ≡ sets codes.old 0 (numbers_for_all (lines_from most script.now start))) }
{
    let mut at = start;
    for lines in 0..most {
        if script.len() <= at {
            return Read { lines, at };
        }
        put_asked(codes, 3 * lines, line_of(line_at(script, at)));
        at = past_line(script, at);
    }
    Read { lines: most, at }
}
