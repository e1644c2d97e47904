// What was emitted is well-formed: statement in specs/, proofs in proofs/.
#![tactic(auto)]
