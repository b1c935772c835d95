// The state that a log gives on the one before it, made in a buffer apart, since a refusal leaves the lent state as it
// was; and that buffer copied.
ghost use Rattle.std.specs.Prelude.{◌≡◌, true, [], ◌≤◌, length};
ghost use Rattle.model.specs.Limits.{head_size};
ghost use Rattle.model.specs.States.{load, state_end};
ghost use Rattle.model.specs.Operations.{after, recovered_on, settle_recovered};
ghost use Rattle.refusals.specs.Numbers.{answered};
ghost use Rattle.state_rows.specs.Canonical.{Canonical};
ghost use Rattle.state_restore.specs.Restored.{state_in};
ghost use Rattle.server_recover.specs.Remaining.{StandsAt};
ghost use Rattle.server_recover.specs.Rebuilt.{Rebuilt, settled_state};

use model::constants;
use refusals::Refusal;
use state_rows::state;

// The state that the log gives on the one in a buffer of the state's size, with the mark at the end of its records.
pub fn rebuild_on(work: &mut [u8], log: &[u8]) -> Result<(), Refusal>
    requires { (length work.old ≡ state_end) × StandsAt work.old head_size }
    ensures { Rebuilt (recovered_on (load work.old) log.now) work.new result }
{
    let found = format_log_ends::log_end(log);
    if found.refusal != constants::NO_REFUSAL {
        return Err(Refusal::BadLog);
    }
    if !crate::replay::replay_log(work, log, found.end as usize) {
        return Err(Refusal::BadLog);
    }
    let size = state::size_of(work);
    state::set_mark(work, size);
    Ok(())
}

// 14, or the rebuilt state where there is one. Its own bytes alone are copied: what lies behind them in the lent buffer
// stays.
pub fn settle(state: &mut [u8], work: &[u8], done: bool) -> Result<u32, Refusal>
    requires { (state_end ≤ length work.now) × (state_end ≤ length state.old)
        × (done ≡ true → Canonical work.now) }
    ensures { after (answered result) state.new [] []
        ≡ settled_state state.old [] (state_in done work.now) }
{
    if !done {
        return Err(Refusal::BadLog);
    }
    let end = constants::RECORDS_START + constants::RECORD_ROW * state::records_of(work);
    format_numbers::copy_part(state, 0, work, 0, end);
    Ok(0)
}

// 14, or the lent state is the one that the log gives on that of a buffer.
pub fn rebuild(state: &mut [u8], work: &mut [u8], log: &[u8]) -> Result<u32, Refusal>
    requires { (state_end ≤ length state.old) × (length work.old ≡ state_end) × StandsAt work.old head_size }
    ensures { after (answered result) state.new log.now []
        ≡ settle_recovered state.old log.now (recovered_on (load work.old) log.now) }
{
    let rebuilt = rebuild_on(work, log);
    settle(state, work, rebuilt.is_ok())
}
