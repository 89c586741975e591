// Scans, rounding and their laws stand in specs/ and proofs/; this crate has no code.
#![tactic(auto)]
