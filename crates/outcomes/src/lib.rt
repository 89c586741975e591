// Which refusals each call can give, and what texts, stamps and messages read as, stands in specs/ and proofs/; this crate has no code.
#![tactic(auto)]
