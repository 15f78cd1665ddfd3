// What steps told, five numbers for each, put as lines: a step's number, its answer, its result.
ghost use Rattle.std.specs.Prelude.{◌≡◌, ◌+◌, ◌*◌, ◌^◌, ◌<◌, ◌≤◌, length};
ghost use Rattle.std.proofs.lemmas.List.Edits.{sets};
ghost use Rattle.script.specs.Telling.{lines_of_told};

use crate::printing::Page;

// The lines of so many steps, numbered from the first one's number on. Answers how many bytes were
// put.
pub(crate) fn put_told(told: &[u64], steps: usize, first: u64, out: &mut [u8]) -> usize
    requires { (5 * steps ≤ length told.now) × (64 * steps ≤ length out.old) × (first + steps < 2 ^ 64) }
    ensures { (result ≡ length (lines_of_told steps first told.now)) × (out.new ≡ sets out.old 0 (lines_of_told steps first told.now)) }
{
    let mut page = Page::new(out);
    for k in 0..steps {
        page.says(first + k as u64, told[5 * k], told[5 * k + 1]);
    }
    page.at
}
