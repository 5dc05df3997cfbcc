// No code: the trail of the literals held true, in specs/, and its laws, in proofs/.
#![tactic(auto)]
