// What load keeps of an accepted source: statement in specs/, proofs in proofs/.
#![tactic(auto)]
