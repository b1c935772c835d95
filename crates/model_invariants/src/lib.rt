// Laws that the limits of a server's state are kept: in proofs/, over the definitions of crate model. No code.
#![tactic(auto)]
