// What was emitted is read back as the same program: statements in specs/, proofs in proofs/.
#![tactic(auto)]
