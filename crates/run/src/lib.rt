// The run of a sheet under any list of starts, and demand 3. There is no code here: specs/ has the definitions and the claim, proofs/ the proof.
#![tactic(auto)]
