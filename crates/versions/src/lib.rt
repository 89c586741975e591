// An older and a newer table, stated in specs/ and proved in proofs/; this crate has no code.
#![tactic(auto)]
