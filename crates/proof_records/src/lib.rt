// The world of states and log records refines the protocol's relation: demand 3 over records. Laws in proofs/. No code.
#![tactic(auto)]
