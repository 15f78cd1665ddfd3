// The pool in which messages wait, by value and lent.
#![tactic(auto)]

pub mod lent;
pub mod places;
