// The survey file. specs/ says what it means, proofs/ has the theorems about it; there is no code here.
#![tactic(auto)]
