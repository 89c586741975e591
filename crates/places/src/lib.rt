// Theorems about the places of refusals, in specs/ and proofs/; this crate has no code.
#![tactic(auto)]
