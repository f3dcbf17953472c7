// What this crate is for is in specs/ and proofs/: demand 3 over any rules. It has no code.

#![tactic(auto)]
