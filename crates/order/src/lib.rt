// What this crate is for is in specs/ and proofs/: sessions are in order, whatever operations are accepted. It has no code.

#![tactic(auto)]
