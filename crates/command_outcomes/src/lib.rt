// What the operator's command writes of a whole input, and what a comparison's first lines tell of the others: stated in specs/ and proved in proofs/; this crate has no code.
#![tactic(auto)]
