// Demand 3, stated over bytes, and over states and log records: the world of all parties, schedules, provisos and the
// claim. No code.
#![tactic(auto)]
