// What this crate is for is in specs/ and proofs/: the paper's worked examples as one table (specs/Table.antt) under one statement
// (proofs/Printed.antt). It has no code.

#![tactic(auto)]
