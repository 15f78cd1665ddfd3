// No code: the theory of one channel between two stations, and of all channels of a table.
#![tactic(auto)]
