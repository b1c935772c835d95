// Laws that rule out the rejected servers of the acceptance list, and a schedule that keeps the provisos of demand 3:
// in proofs/. No code.
#![tactic(auto)]
