// A number as bytes, high byte first.
ghost use Rattle.std.specs.Prelude.{◌≡◌, ◌+◌, ◌≤◌, ◌<◌, ◌^◌, length};
ghost use Rattle.std.proofs.lemmas.List.Edits.{sets};
ghost use Rattle.ground.specs.Limits.{last_clock};
ghost use Rattle.record.specs.Numbers.{big, number_at};

fn bytes_at(bytes: &[u8], at: usize, size: usize) -> u64
    requires { (size ≤ 8) × (at + size ≤ length bytes.now) }
    ensures number { result ≡ number_at bytes.now at size }
    ensures below { result < 256 ^ size }
{
    let mut x: u64 = 0;
    for &byte in &bytes[at..at + size] {
        x = x * 256 + byte as u64;
    }
    x
}

// The number in the bytes that stand at a position. Of eight, each half is read by itself: the
// compiler makes one load of the two.
pub(crate) fn number_at(bytes: &[u8], at: usize, size: usize) -> u64
    requires { (size ≤ 8) × (at + size ≤ length bytes.now) }
    ensures number { result ≡ number_at bytes.now at size }
    ensures below { result < 256 ^ size }
{
    if size == 8 {
        return bytes_at(bytes, at, 4) * 4294967296 + bytes_at(bytes, at + 4, 4);
    }
    bytes_at(bytes, at, size)
}

// The number of a clock of either kind.
pub(crate) fn clock_at(bytes: &[u8], at: usize) -> u32
    requires { at + 4 ≤ length bytes.now }
    ensures { (result ≡ number_at bytes.now at 4) × (result ≤ last_clock) }
{
    number_at(bytes, at, 4) as u32
}

// A number's bytes put at a position, the last one first.
#[tactic(auto, using(crate::proofs::Bytes::put_turn, crate::proofs::Bytes::put_none))]
pub(crate) fn put_number(buffer: &mut [u8], at: usize, size: usize, x: u64)
    requires { at + size ≤ length buffer.old }
    ensures { buffer.new ≡ sets buffer.old at (big size x) }
{
    let mut rest = x;
    for k in (0..size).rev() {
        buffer[at + k] = (rest % 256) as u8;
        rest /= 256;
    }
}
