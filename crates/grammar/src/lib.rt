// Theorems alone: specs/Claims.antt says them, specs/Examples.antt has worked examples, proofs/ proves them.
#![tactic(auto)]
