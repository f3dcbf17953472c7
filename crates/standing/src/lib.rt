// What this crate is for is in specs/ and proofs/: demand 3 of a session's bytes, which is replay's theorem at the contracts of session's
// operations (proofs/Theorem.antt). It has no code.

#![tactic(auto)]
