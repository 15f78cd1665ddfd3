// A lent buffer filled from its start: text, numbers, and lines of them.
ghost use Rattle.std.specs.Prelude.{◌≡◌, [], ◌∷◌, ◌++◌, ◌+◌, ◌≤◌, length};
ghost use Rattle.std.proofs.lemmas.List.Edits.{sets};
ghost use Rattle.script.specs.Decimal.{decimal, step_line, way_line, total_line};
ghost use Rattle.script.specs.Page.{HasRoom, Puts};

// The buffer, and how many of its bytes are put.
#[derive(Drop)]
pub(crate) struct Page<'a> {
    out: &'a mut [u8],
    pub(crate) at: usize,
}

// How many digits a number has: one more for each time that it can be divided.
fn digit_count(n: u64) -> usize
    ensures { result ≡ length (decimal n) }
{
    let mut rest = n;
    let mut count: usize = 1;
    while 9 < rest {
        rest /= 10;
        count += 1;
    }
    count
}

// The digits are stored from the last to the first, since that is how division gives them.
fn put_decimal(out: &mut [u8], at: usize, n: u64) -> usize
    requires { at + 20 ≤ length out.old }
    ensures { (result ≡ at + length (decimal n)) × (out.new ≡ sets out.old at (decimal n)) }
{
    let count = digit_count(n);
    let mut rest = n;
    let mut k = count;
    while 9 < rest {
        k -= 1;
        out[at + k] = b'0' + (rest % 10) as u8;
        rest /= 10;
    }
    out[at] = b'0' + rest as u8;
    at + count
}

impl<'a> Page<'a> {
    // Nothing is put yet.
    pub(crate) fn new(out: &'a mut [u8]) -> Page<'a>
        ensures same { result.out.ghost_name ≡ out.entry.ghost_name }
        ensures start { result.at ≡ 0 }
        ensures lent { result.out.now ≡ out.old }
    {
        Page { out, at: 0 }
    }

    fn text(&mut self, text: &[u8])
        requires { HasRoom self.old (length text.now) }
        ensures { Puts self.old text.now self.new }
    {
        let end = self.at + text.len();
        self.out[self.at..end].copy_from_slice(text);
        self.at = end;
    }

    fn decimal(&mut self, n: u64)
        requires { HasRoom self.old 20 }
        ensures { Puts self.old (decimal n) self.new }
    {
        self.at = put_decimal(self.out, self.at, n);
    }

    // A text and then a number.
    pub(crate) fn named(&mut self, text: &[u8], n: u64)
        requires { HasRoom self.old (length text.now + 20) }
        ensures { Puts self.old (text.now ++ decimal n) self.new }
    {
        self.text(text);
        self.decimal(n);
    }

    // The last text and number of a line, and the line end.
    pub(crate) fn last(&mut self, text: &[u8], n: u64)
        requires { HasRoom self.old (length text.now + 21) }
        ensures { Puts self.old (text.now ++ decimal n ++ (10 ∷ [])) self.new }
    {
        self.named(text, n);
        self.text(b"\n");
    }

    // Three numbers on a line.
    pub(crate) fn says(&mut self, number: u64, answer: u64, res: u64)
        requires { HasRoom self.old 64 }
        ensures { Puts self.old (step_line number answer res) self.new }
    {
        self.decimal(number);
        self.named(b" ", answer);
        self.last(b" ", res);
    }

    // The sum on the way, on a line.
    pub(crate) fn way(&mut self, sum: u64)
        requires { HasRoom self.old 64 }
        ensures { Puts self.old (way_line sum) self.new }
    {
        self.last(b"on the way ", sum);
    }

    // The values of all stations and the sum on the way together, on a line.
    pub(crate) fn total(&mut self, total: u64)
        requires { HasRoom self.old 64 }
        ensures { Puts self.old (total_line total) self.new }
    {
        self.last(b"total ", total);
    }
}
