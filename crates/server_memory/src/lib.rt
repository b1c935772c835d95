// The memory that is lent to every call of a server: its tests, which come first, and the space left in the log.
#![tactic(auto)]

ghost use Rattle.std.specs.Prelude.{◌≡◌, ◌≤◌, length};
ghost use Rattle.model.specs.States.{load, state_end};
ghost use Rattle.model.specs.Operations.{unfit, lent_refusal, free_in};
ghost use Rattle.refusals.specs.Numbers.{refusal_of};

use model::constants::STATE_SIZE;
use refusals::Refusal;
use state_rows::state;

// 19: the state is not sound, or the log slice is shorter than its recorded length.
fn is_unfit(s: &[u8], log: &[u8]) -> bool
    requires { state_end ≤ length s.now }
    ensures { result ≡ unfit s.now log.now }
{
    if !state_soundness::state_ok(s) {
        return true;
    }
    let size = state::size_of(s);
    (log.len() as u64) < size
}

// 2 state or output too short; 19. The output has n bytes, of which need are asked.
pub fn lent_refusal(s: &[u8], log: &[u8], n: usize, need: usize) -> Result<(), Refusal>
    ensures { refusal_of result ≡ lent_refusal s.now log.now n need }
{
    if (s.len() < STATE_SIZE) | (n < need) {
        return Err(Refusal::TooShort);
    }
    if is_unfit(s, log) {
        return Err(Refusal::Unsound);
    }
    Ok(())
}

// The space left in the log.
pub fn free_in(s: &[u8], log: &[u8]) -> usize
    requires { (state_end ≤ length s.now) × ((load s.now).size ≤ length log.now) }
    ensures { result ≡ free_in s.now log.now }
{
    let size = state::size_of(s);
    log.len() - size as usize
}
