// Laws of tests, of names compared, and of the search for the lowest number that passes a test: proofs/. There is no code here.
#![tactic(auto)]
