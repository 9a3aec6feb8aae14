// What the definitions say of lists as multisets stands in specs/. No function.
#![tactic(auto)]
