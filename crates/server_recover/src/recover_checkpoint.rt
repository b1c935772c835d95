// Recover from checkpoint and tail: the state that both give.
ghost use Rattle.std.specs.Prelude.{◌≡◌, [], length};
ghost use Rattle.model.specs.States.{state_end};
ghost use Rattle.model.specs.Operations.{after};
ghost use Rattle.model.specs.Checkpoints.{recovered_tail, recover_tail_of};
ghost use Rattle.refusals.specs.Numbers.{answered};
ghost use Rattle.server_recover.specs.Rebuilt.{Begun};

use refusals::Refusal;
use state_rows::state;

// The state that a checkpoint gives, of the server of the tail's head.
fn begin_checkpoint(work: &mut [u8], checkpoint: &[u8], tail: &[u8]) -> Result<(), Refusal>
    requires { length work.old ≡ state_end }
    ensures { Begun (recovered_tail checkpoint.now tail.now) tail.now
        work.new result }
{
    if !format_log_ends::head_ok(tail) {
        return Err(Refusal::BadLog);
    }
    if !state_restore::restore_sound(work, checkpoint) {
        return Err(Refusal::BadLog);
    }
    if format_log_ends::head_server(tail) != state::server_of(work) {
        return Err(Refusal::BadLog);
    }
    Ok(())
}

// 2 state too short; 14 the checkpoint gives no sound state, or one of another server than the tail, or the tail as for
// recover; else the state that the tail's whole records give on the checkpoint's, and the mark is their end.
pub fn recover_checkpoint(state: &mut [u8], checkpoint: &[u8], tail: &[u8]) -> Result<u32, Refusal>
    ensures { after (answered result) state.new tail.now []
        ≡ recover_tail_of state.old checkpoint.now tail.now }
{
    server_decide::recover_checkpoint_refusal(state.len())?;
    let mut work = state_rows::blank();
    begin_checkpoint(&mut work, checkpoint, tail)?;
    crate::rebuild::rebuild(state, &mut work, tail)
}
