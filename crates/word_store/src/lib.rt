// Heap words and text bytes as a store of the bounded machine. Definitions are in specs/, that they meet the laws is in proofs/.
#![tactic(auto)]
