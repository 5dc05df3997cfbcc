// No code: what the answers of decide, derive and check mean, by their definitions, in proofs/.
#![tactic(auto)]
