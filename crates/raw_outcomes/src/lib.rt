// What holds of raw counters after any list of calls, which refusals their calls can give, and what a subtick is, stands in specs/ and proofs/; this crate has no code.
#![tactic(auto)]
