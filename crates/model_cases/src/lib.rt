// Worked cases of docs/REFERENCE.md, computed by the definitions of `model`. No code.
#![tactic(auto)]
