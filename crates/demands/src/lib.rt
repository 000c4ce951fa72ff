// The customer's demands as theorems, in proofs/, over what they say, in specs/; no code.
#![tactic(auto)]
