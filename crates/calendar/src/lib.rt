// The Gregorian calendar and shut days: definitions and proofs that other crates cite, and no code.
#![tactic(auto)]
