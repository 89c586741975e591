// What the answers over two tables mean, and that no others are given, stands in specs/ and proofs/; this crate has no code.
#![tactic(auto)]
