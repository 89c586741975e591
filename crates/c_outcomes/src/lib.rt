// What holds of the C calls stands in specs/ and proofs/; this crate has no code.
#![tactic(auto)]
