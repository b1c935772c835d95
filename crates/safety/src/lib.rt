// Demand 3 over bytes: the byte world refines the world of records, which refines the protocol; the layers joined. No
// code.
#![tactic(auto)]
