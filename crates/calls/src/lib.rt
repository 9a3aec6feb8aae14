// What each call answers and leaves, on any words and bytes: definitions in specs/, laws in proofs/; no function.
#![tactic(auto)]
