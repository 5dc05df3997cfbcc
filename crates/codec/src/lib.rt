// No code: theorems about tables and their bytes, in proofs/.
#![tactic(auto)]
