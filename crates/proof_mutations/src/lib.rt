// Mutations of a server's decisions, in the world of states and log records: each is refused by a schedule and by a
// law. No code.
#![tactic(auto)]
