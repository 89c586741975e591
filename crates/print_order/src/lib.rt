// Theorems that prints have one length and sort as what they print, in specs/ and proofs/; this crate has no code.
#![tactic(auto)]
