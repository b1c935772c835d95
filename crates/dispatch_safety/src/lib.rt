// No code: dispatchers joined with the proved kernel, and with the controllers of a lock.
#![tactic(auto)]
