// What an answer of the kernel reader tells, which refusals it can give, and what may be changed in a text, stands in specs/ and proofs/; this crate has no code.
#![tactic(auto)]
