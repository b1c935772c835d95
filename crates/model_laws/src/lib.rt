// Laws about the definitions of `model`: reading back what was written, writing again what was read, how a client's
// calls end. No code.
#![tactic(auto)]
