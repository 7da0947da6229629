// The mission's third demand: its words, the claim of every list, and its proof, which other crates cite; no code.
#![tactic(auto)]
