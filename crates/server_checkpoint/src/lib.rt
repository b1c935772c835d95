// Checkpoint: what a server knows, without places of its log, and the head of the tail that follows; the state then
// starts from them.
#![tactic(auto)]

ghost use Rattle.std.specs.Prelude.{◌≡◌, ℕ, ◌≤◌, List, length, Ok};
ghost use Rattle.model.specs.Limits.{head_size, checkpoint_size};
ghost use Rattle.model.specs.Versions.{today};
ghost use Rattle.model.specs.Checkpoints.{checkpoint_refusal, checkpoint_of};
ghost use Rattle.refusals.specs.Numbers.{refusal_of, answered};
ghost use Rattle.model_laws.specs.Fits.{Sound};
ghost use Rattle.server_checkpoint.specs.Taken.{after_checkpoint, checkpoint_taken};

use model::constants;
use refusals::Refusal;
use state_rows::state;

// 2; 19; 7 records not synced; 0 if none is given. By the lengths of checkpoint and tail.
fn checkpoint_refusal(s: &[u8], log: &[u8], checkpoints: usize, tails: usize) -> Result<(), Refusal>
    ensures { refusal_of result ≡ checkpoint_refusal s.now log.now checkpoints tails }
{
    if tails < constants::HEAD_SIZE {
        return Err(Refusal::TooShort);
    }
    server_memory::lent_refusal(s, log, checkpoints, constants::CHECKPOINT_SIZE)?;
    let mark = state::mark_of(s);
    let size = state::size_of(s);
    server_decide::checkpoint_refusal(mark, size)
}

// The checkpoint of a sound state, and from it the state that the tail starts with, beside whatever log. It gives the
// checkpoint's length.
fn checkpoint_done(s: &mut [u8], checkpoint: &mut [u8], tail: &mut [u8]) -> u32
    requires { (Sound s.old) × (checkpoint_size ≤ length checkpoint.old) × (head_size ≤ length tail.old) }
    ensures { (g : List ℕ) → after_checkpoint (answered (Ok result)) s.new g checkpoint.new tail.new
        ≡ checkpoint_taken s.old g checkpoint.old tail.old }
{
    let server = state::server_of(s);
    let number = state_checkpoint::write_checkpoint(checkpoint, s);
    state_restore::restore(s, checkpoint);
    format_log_writer::write_head(tail, server);
    number
}

// 2; 19; 7; else the checkpoint, the tail's head, and the state that starts from both. The log is only measured.
pub fn checkpoint(
    state: &mut [u8],
    log: &[u8],
    checkpoint: &mut [u8],
    tail: &mut [u8],
) -> Result<u32, Refusal>
    ensures { after_checkpoint (answered result) state.new log.now checkpoint.new
        tail.new ≡ checkpoint_of today state.old log.now checkpoint.old
        tail.old }
{
    checkpoint_refusal(state, log, checkpoint.len(), tail.len())?;
    Ok(checkpoint_done(state, checkpoint, tail))
}
