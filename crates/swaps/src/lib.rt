// Request 11, unfinished: demand 3 by fields, for other bytes and for swapped neighbours alike. Statements and
// proofs, no code.
#![tactic(auto)]
