// What reading promises, told of the bytes that are lent: that every one of them is a byte is known
// of any `&[u8]`, and so nothing is asked of a caller.
ghost use Rattle.demands.specs.Lent.{ReadsLent};

use record::reading::Reading;

// Bytes that are accepted are what writing their message gives.
#[tactic(auto, using(record::proofs::WriteRead::accepted_is_written))]
fn read_lent(bytes: &[u8]) -> Reading
    ensures { ReadsLent bytes.now result }
{
    record::read(bytes)
}
