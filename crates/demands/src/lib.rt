// What is promised of the calls, in the papers' words: theorems about the calls' contracts, in proofs/.
#![tactic(auto)]
