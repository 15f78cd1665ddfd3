// What the promises of the other crates come to, as theorems about their definitions. The only code
// is that of `lent`, which nobody calls.
#![tactic(auto)]

mod lent;
