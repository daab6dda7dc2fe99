// What is promised of all crates together: statements and proofs in specs/, no code.
#![tactic(auto)]
