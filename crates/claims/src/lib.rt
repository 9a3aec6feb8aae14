// The claims: document 00's demands 1 to 3 as types, in specs/Claims. No function.
#![tactic(auto)]
