// What a source that load accepts has: statements in specs/, proofs in proofs/.
#![tactic(auto)]
