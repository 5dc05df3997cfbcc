// No code: files with one wrong byte, in specs/, and that every call refuses them, in proofs/.
#![tactic(auto)]
