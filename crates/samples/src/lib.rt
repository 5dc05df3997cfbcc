// No code: the samples of the scope paper as one table, in specs/, and the theorem over all its rows, in proofs/.
#![tactic(auto)]
