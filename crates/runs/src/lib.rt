// No code: what a run of a table is, and what holds of every run, as theorems about the definitions
// that the promises of `steps` cite.
#![tactic(auto)]
