// Definitions and theorems, no code: specs/ says what the search is and what it must do, proofs/ shows that it does it.
#![tactic(auto)]
