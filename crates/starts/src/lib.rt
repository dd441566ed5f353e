// Theorems on the starts S, in proofs/. There is no code here.
#![tactic(auto)]
