// The three demands, proved of the machine: definitions and proofs only.
#![tactic(auto)]
