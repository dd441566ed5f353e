// Theorems over kind and width, in proofs/. There is no code here.
#![tactic(auto)]
