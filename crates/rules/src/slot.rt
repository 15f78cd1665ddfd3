// A slot is what is asked for on its terms.
ghost use Rattle.rules.specs.Terms.{slot_terms, slot_on};

use crate::held::{Held, Slot, Terms};

impl Held for Slot {
    ghost terms_of = { slot_terms };

    ghost held_on = { slot_on };

    fn terms(self) -> Terms {
        Terms {
            source: self.source,
            destination: self.destination,
            quantity: self.quantity,
        }
    }

    fn on(terms: Terms) -> Slot {
        Slot {
            source: terms.source,
            destination: terms.destination,
            quantity: terms.quantity,
        }
    }
}
