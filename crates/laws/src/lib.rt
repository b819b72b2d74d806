// Only laws of the definitions that several crates cite, in proofs/.
#![tactic(auto)]
