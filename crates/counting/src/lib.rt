// Sums and counts over the numbers below a bound: definitions in specs/, lemmas in proofs/, no code.
#![tactic(auto)]
