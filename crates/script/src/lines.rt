// A line of a script.
ghost use Rattle.std.specs.Prelude.{◌≡◌};
ghost use Rattle.script.specs.Lines.{line_by, line_of, stations_of};
ghost use Rattle.script.specs.Parts.{pair_of};

use crate::words::{cut_at, numeral_of};
use steps::asked::Step;

// Two numbers with a space between.
fn pair_of(words: &[u8]) -> Option<(u64, u64)>
    ensures { result ≡ pair_of words.now }
{
    let (first, second) = cut_at(b' ', words);
    Some((numeral_of(first)?, numeral_of(second)?))
}

// The step of a word and what stands behind it.
#[tactic(auto, using(crate::proofs::Sameness::same_is))]
fn line_by(word: &[u8], rest: &[u8]) -> Option<Step>
    ensures { result ≡ line_by word.now rest.now }
{
    if word == b"add".as_slice() {
        return pair_of(rest).map(|(k, amount)| Step::Add(k, amount));
    }
    if word == b"draw".as_slice() {
        return pair_of(rest).map(|(k, amount)| Step::Draw(k, amount));
    }
    if word == b"send".as_slice() {
        return pair_of(rest).map(|(from, to)| Step::Send(from, to));
    }
    if word == b"deliver".as_slice() {
        return numeral_of(rest).map(Step::Deliver);
    }
    if word == b"lose".as_slice() {
        return numeral_of(rest).map(Step::Lose);
    }
    None
}

// The step that a line asks for.
#[tactic(auto, unfolding(crate::specs::Lines::line_of))]
pub(crate) fn line_of(line: &[u8]) -> Option<Step>
    ensures { result ≡ line_of line.now }
{
    let (word, rest) = cut_at(b' ', line);
    line_by(word, rest)
}

// The number of stations that a line gives.
#[tactic(auto, using(crate::proofs::Sameness::same_is), unfolding(crate::specs::Lines::stations_of))]
pub(crate) fn stations_of(line: &[u8]) -> Option<u64>
    ensures { result ≡ stations_of line.now }
{
    let (word, rest) = cut_at(b' ', line);
    if word == b"stations".as_slice() {
        return numeral_of(rest);
    }
    None
}
