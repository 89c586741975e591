// That a written packet is read back as what was written, which refusals reading and writing can give, and what a packet that is read means, stands in specs/ and proofs/; this crate has no code.
#![tactic(auto)]
