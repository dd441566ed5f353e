// Definitions alone, in specs/: what a reader must believe. There is no code here.
#![tactic(auto)]
