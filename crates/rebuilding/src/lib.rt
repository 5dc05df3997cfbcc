// No code: the rebuilding of a table by add where it has implications, in specs/, and what the rebuilt literals mean, in proofs/.
#![tactic(auto)]
