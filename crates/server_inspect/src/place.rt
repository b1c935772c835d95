// Inspect: where the latest bytes of a completion record lie, in the tail or in the checkpoint before it.
ghost use Rattle.std.specs.Prelude.{◌≡◌, true, ◌≤◌, length};
ghost use Rattle.model.specs.Limits.{head_size};
ghost use Rattle.model.specs.States.{state_end};
ghost use Rattle.model.specs.Checkpoints.{no_place, checkpoint_state, checkpoint_framed, place_in_checkpoint, checkpoint_bad, inspect_of};
ghost use Rattle.refusals.specs.Numbers.{number_of};
ghost use Rattle.server_inspect.specs.Inspected.{foreign, Logged, placed_by};

use crate::records;
use model::constants::NO_REFUSAL;
use model::{Place, constants};
use refusals::Refusal;
use state_records::ids;
use state_rows::state;

// No place: a refusal's number.
fn no_place(refusal: Refusal) -> Place
    ensures { result ≡ no_place (number_of refusal) }
{
    Place {
        refusal: refusal.number(),
        source: 0,
        start: 0,
        end: 0,
    }
}

// ---- refusals

// The checkpoint gives no state, or one of another server than the log. The state that it gives is made in a buffer
// apart.
fn is_foreign(work: &mut [u8], checkpoint: &[u8], log: &[u8]) -> bool
    requires { (length work.old ≡ state_end) × (head_size ≤ length log.now) }
    ensures { result ≡ foreign (checkpoint_state checkpoint.now) log.now }
{
    if !state_restore::restore_sound(work, checkpoint) {
        return true;
    }
    let server = state::server_of(work);
    format_log_ends::head_server(log) != server
}

// The same of a checkpoint that is not empty.
fn checkpoint_bad(checkpoint: &[u8], log: &[u8]) -> bool
    requires { head_size ≤ length log.now }
    ensures { result ≡ checkpoint_bad checkpoint.now log.now }
{
    if checkpoint.len() == 0 {
        return false;
    }
    let mut work = state_rows::blank();
    is_foreign(&mut work, checkpoint, log)
}

// ---- places

// An entry of a checkpoint that is empty or keeps its layout.
fn place_in_checkpoint(checkpoint: &[u8], client: u32, call: u32) -> Place
    requires { 1 ≤ length checkpoint.now → checkpoint_framed checkpoint.now ≡ true }
    ensures { result ≡ place_in_checkpoint client call checkpoint.now }
{
    let none = no_place(Refusal::Unknown);
    if checkpoint.len() == 0 {
        return none;
    }
    let width = state_restore::record_width(checkpoint);
    let n = state_restore::records_of(checkpoint, width);
    let clients = state_restore::clients_of(checkpoint);
    let at = constants::CLIENTS_PART + constants::FLOOR_ROW * clients;
    let i = records::index_of(checkpoint, at, width, n, client, call);
    records::place_of(constants::IN_CHECKPOINT, at, width, n, i, none)
}

// In a log that is as long as the state records, and in the checkpoint before it.
fn place_logged(
    state: &[u8],
    checkpoint: &[u8],
    log: &[u8],
    client: u32,
    call: u32,
) -> Result<Place, Refusal>
    requires { Logged state.now log.now }
    ensures { placed_by result ≡ inspect_of state.now checkpoint.now log.now client call }
{
    let walked = format_log_ends::log_end(log);
    let bad = checkpoint_bad(checkpoint, log);
    let lacks = ids::is_missing(state, client, call);
    server_decide::inspect_refusal(bad, walked.refusal != NO_REFUSAL, lacks)?;
    let first = place_in_checkpoint(checkpoint, client, call);
    Ok(records::latest_in(log, walked.end as usize, client, call, first))
}

// In a tail that is no shorter than the state records, or 2; 19.
fn place_lent(
    state: &[u8],
    checkpoint: &[u8],
    tail: &[u8],
    client: u32,
    call: u32,
) -> Result<Place, Refusal>
    ensures { placed_by result ≡ inspect_of state.now checkpoint.now tail.now client call }
{
    server_memory::lent_refusal(state, tail, 0, 0)?;
    let size = state::size_of(state) as usize;
    place_logged(state, checkpoint, &tail[..size], client, call)
}

// 2 state too short; 19; 14 where there is a checkpoint but no state in it, or that of another server than the tail's,
// or where the first walk refuses the tail; 17 no such completion record; else the part that holds it. The tail is
// walked up to its recorded length: its last log record or image entry of the id counts, and only without one the
// checkpoint's entry.
pub fn place(state: &[u8], checkpoint: &[u8], tail: &[u8], client: u32, call: u32) -> Place
    ensures { result ≡ inspect_of state.now checkpoint.now tail.now client call }
{
    place_lent(state, checkpoint, tail, client, call).unwrap_or_else(no_place)
}
