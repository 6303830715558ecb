// The general definitions and laws that several crates cite: specs/ and proofs/. There is no code here.
#![tactic(auto)]
