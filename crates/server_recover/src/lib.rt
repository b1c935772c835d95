// The state that a kept log gives: recover, from founding; recover_checkpoint, from a checkpoint and its tail; both by
// rebuild and replay.
#![tactic(auto)]

pub mod rebuild;
pub mod recover;
pub mod recover_checkpoint;
pub mod replay;
