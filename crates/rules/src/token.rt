// A token is what is given on its terms.
ghost use Rattle.rules.specs.Terms.{token_terms, token_on};

use crate::held::{Held, Terms, Token};

impl Held for Token {
    ghost terms_of = { token_terms };

    ghost held_on = { token_on };

    fn terms(self) -> Terms {
        Terms {
            source: self.source,
            destination: self.destination,
            quantity: self.quantity,
        }
    }

    fn on(terms: Terms) -> Token {
        Token {
            source: terms.source,
            destination: terms.destination,
            quantity: terms.quantity,
        }
    }
}
