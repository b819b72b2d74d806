#![tactic(auto)]

// Only lemmas: proofs/.
