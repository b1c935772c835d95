// The lock chamber controller over the proved kernel: demand 3, the fence and the lock's theorem joined, and a schedule
// that keeps every proviso. No code.
#![tactic(auto)]
