// A lent buffer filled from its start with the fields of a record.
#![tactic(auto, using(crate::proofs::Sheets::room))]

ghost use Rattle.std.specs.Prelude.{◌≡◌, [], ◌∷◌, ◌++◌};
ghost use Rattle.record.specs.Numbers.{big};
ghost use Rattle.record.specs.Fields.{tagged};
ghost use Rattle.record.specs.Sheet.{HasRoom, Puts};
ghost use Rattle.record.specs.Writing.{terms_bytes, held_bytes};

use crate::fields::Line;
use crate::numbers::put_number;
use ground::clocks::{DestinationClock, SourceClock};
use rules::held::{Held, Terms};

// The buffer, and how many of its bytes are put.
#[derive(Drop)]
pub(crate) struct Sheet<'a> {
    out: &'a mut [u8],
    at: usize,
}

impl<'a> Sheet<'a> {
    // Nothing is put yet.
    pub(crate) fn new(out: &'a mut [u8]) -> Sheet<'a>
        ensures same { result.out.ghost_name ≡ out.entry.ghost_name }
        ensures start { result.at ≡ 0 }
        ensures lent { result.out.now ≡ out.old }
    {
        Sheet { out, at: 0 }
    }

    // A number's bytes.
    #[tactic(auto, using(crate::proofs::Digits::length_big))]
    fn number(&mut self, size: usize, x: u64)
        requires { HasRoom self.old (big size x) }
        ensures { Puts self.old (big size x) self.new }
    {
        put_number(self.out, self.at, size, x);
        self.at += size;
    }

    // A field's tag and length.
    fn head(&mut self, line: Line)
        requires { HasRoom self.old (big 1 line.tag ++ big 2 line.size) }
        ensures { Puts self.old (big 1 line.tag ++ big 2 line.size) self.new }
    {
        self.number(1, line.tag);
        self.number(2, line.size as u64);
    }

    // Two clocks, with no tag and no length.
    fn clocks(&mut self, source: SourceClock, destination: DestinationClock)
        requires { HasRoom self.old (big 4 source.0 ++ big 4 destination.0) }
        ensures { Puts self.old (big 4 source.0 ++ big 4 destination.0) self.new }
    {
        self.number(4, source.0 as u64);
        self.number(4, destination.0 as u64);
    }

    // A field whose body is one number.
    pub(crate) fn field(&mut self, line: Line, x: u64)
        requires { HasRoom self.old (tagged line.tag (line.size ∷ []) (x ∷ [])) }
        ensures { Puts self.old (tagged line.tag (line.size ∷ []) (x ∷ [])) self.new }
    {
        self.head(line);
        self.number(line.size, x);
    }

    // A field whose body is two clocks.
    pub(crate) fn clocks_field(
        &mut self,
        line: Line,
        source: SourceClock,
        destination: DestinationClock,
    )
        requires { (line.size ≡ 8) × HasRoom self.old (tagged line.tag (4 ∷ 4 ∷ []) (source.0 ∷ destination.0 ∷ [])) }
        ensures { Puts self.old (tagged line.tag (4 ∷ 4 ∷ []) (source.0 ∷ destination.0 ∷ [])) self.new }
    {
        self.head(line);
        self.clocks(source, destination);
    }

    // A field whose body is two clocks and a quantity.
    fn terms_field(&mut self, line: Line, terms: Terms)
        requires { (line.size ≡ 16) × HasRoom self.old (terms_bytes line.tag terms) }
        ensures { Puts self.old (terms_bytes line.tag terms) self.new }
    {
        self.head(line);
        self.clocks(terms.source, terms.destination);
        self.number(8, terms.quantity);
    }

    // The field of what is held, or nothing where nothing is.
    #[tactic(auto, using(crate::proofs::Lengths::length_one, crate::proofs::Sheets::puts_none))]
    pub(crate) fn held_field<H: Held>(&mut self, line: Line, held: Option<H>)
        requires { (line.size ≡ 16) × HasRoom self.old (held_bytes H.terms_of line.tag held) }
        ensures { Puts self.old (held_bytes H.terms_of line.tag held) self.new }
    {
        if let Some(one) = held {
            self.terms_field(line, one.terms());
        }
    }
}
