// Bytes cut at a byte, and a number in decimal digits.
ghost use Rattle.std.specs.Prelude.{◌≡◌, ◌≤◌, length};
ghost use Rattle.script.specs.Parts.{digits_of};
ghost use Rattle.script.specs.Words.{numeral_of, past, up_to};

// What stands before the first such byte, and what stands past it; everything and nothing where
// there is none.
pub(crate) fn cut_at(byte: u8, bytes: &[u8]) -> (&[u8], &[u8])
    ensures before { result.0.now ≡ up_to byte bytes.now }
    ensures behind { result.1.now ≡ past byte bytes.now }
{
    match bytes.iter().position(|b| *b == byte) {
        Some(end) => (&bytes[..end], &bytes[end + 1..]),
        None => (bytes, &[]),
    }
}

// The number that up to 10 digits stand for.
fn digits_of(word: &[u8]) -> Option<u64>
    requires { length word.now ≤ 10 }
    ensures { result ≡ digits_of 0 word.now }
{
    let mut sofar: u64 = 0;
    for b in word {
        if !b.is_ascii_digit() {
            return None;
        }
        sofar = sofar * 10 + u64::from(*b - b'0');
    }
    Some(sofar)
}

// A number of 1 to 10 digits without a leading zero.
pub(crate) fn numeral_of(word: &[u8]) -> Option<u64>
    ensures { result ≡ numeral_of word.now }
{
    if !(1..=10).contains(&word.len()) {
        return None;
    }
    if 1 < word.len() && word[0] == b'0' {
        return None;
    }
    digits_of(word)
}
