// The program of an accepted source has the shape that emission needs: definitions in specs/, proofs in proofs/.
#![tactic(auto)]
