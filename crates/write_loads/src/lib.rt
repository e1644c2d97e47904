// The text of an accepted source's program loads again, as the same program. Definitions in specs/, proofs in proofs/.
#![tactic(auto)]
