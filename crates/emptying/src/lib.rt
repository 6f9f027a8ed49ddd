// An emptying road: specs/ says what the longest way out is and how many quiet steps begin busy, proofs/ has the theorems; there is no
// code here.
#![tactic(auto)]
