// What a walk over a whole dump gives, and which refusals a step can give, stands in specs/ and proofs/; this crate has no code.
#![tactic(auto)]
