// Demand 3 over an abstract world: logs as lists of records, every call and crash. No code.
#![tactic(auto)]
