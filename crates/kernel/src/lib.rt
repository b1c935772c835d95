// The C interface: the calls of a server over its lent slices (include/mantelorris.h). Each answers one word of 64
// bits: the low 32 bits are 0 or the refusal's number, the high 32 bits the number of bytes written to the output; log
// end, over a log alone, answers a number and an end of 64 bits, and inspect a place. And the calls of the dispatcher
// above a server, in no header yet: given and returned by value.
#![tactic(auto)]

ghost use Rattle.std.specs.Prelude.{◌≡◌, []};
ghost use Rattle.model.specs.Versions.{today};
ghost use Rattle.model.specs.Operations.{word_of, found_of, request_of, fetch_of, sync_of, notice_of, give_of, image_of, take_of, receipt_of, release_of, recover_of, log_end_of};
ghost use Rattle.model.specs.Checkpoints.{checkpoint_of, recover_tail_of, inspect_of};
ghost use Rattle.refusals.specs.Numbers.{answered};
ghost use Rattle.dispatch_claim.specs.Dispatcher.{no_waiting, enqueue_of, serve_of};
ghost use Rattle.kernel.specs.Interface.{version, returned, in_c, checkpoint_returned, checkpoint_in_c, serve_returned, serve_in_c};

use dispatch_claim::{Dispatcher, Enqueued};
use model::{Answer, LogEnd, Place, constants};
use refusals::Refusal;

// The interface's version, major * 65,536 + minor.
const VERSION: u32 = 65543;

#[unsafe(no_mangle)]
pub extern "C" fn mantelorris_version() -> u32
    ensures { result ≡ version }
{
    VERSION
}

fn word_of(answer: Answer) -> u64
    ensures { result ≡ word_of answer }
{
    answer.refusal as u64 + constants::WORD * (answer.wrote as u64)
}

// What a call came to, in one word.
fn outcome_word(outcome: Result<u32, Refusal>) -> u64
    ensures { result ≡ word_of (answered outcome) }
{
    word_of(refusals::answer(outcome))
}

// Founds a server: its first state, and the head of its log.
#[unsafe(no_mangle)]
pub extern "C" fn mantelorris_found(
    state: &mut [u8],
    log: &mut [u8],
    plan: &[u8],
    server: u32,
) -> u64
    ensures { returned result state.new log.new []
        ≡ in_c (found_of state.old log.old plan.now server) }
{
    outcome_word(server_found::found(state, log, plan, server))
}

// A request packet: executed, answered from its completion record, or refused.
#[unsafe(no_mangle)]
pub extern "C" fn mantelorris_request(
    state: &mut [u8],
    log: &mut [u8],
    packet: &[u8],
    out: &mut [u8],
) -> u64
    ensures { returned result state.new log.new out.new
        ≡ in_c (request_of today state.old log.old packet.now out.old) }
{
    word_of(refusals::request_answer(server_service::request::request(state, log, packet, out)))
}

// The result packet of a completion record.
#[unsafe(no_mangle)]
pub extern "C" fn mantelorris_fetch(
    state: &[u8],
    log: &[u8],
    client: u32,
    call: u32,
    out: &mut [u8],
) -> u64
    ensures { returned result state.now log.now out.new
        ≡ in_c (fetch_of today state.now log.now client call out.old) }
{
    outcome_word(server_service::fetch::fetch(state, log, client, call, out))
}

// The log is synced up to the mark.
#[unsafe(no_mangle)]
pub extern "C" fn mantelorris_sync(state: &mut [u8], log: &[u8], mark: u64) -> u64
    ensures { returned result state.new log.now []
        ≡ in_c (sync_of state.old log.now mark) }
{
    outcome_word(server_service::sync::sync(state, log, mark))
}

// A notice packet: a lease has ended.
#[unsafe(no_mangle)]
pub extern "C" fn mantelorris_notice(state: &mut [u8], log: &mut [u8], packet: &[u8]) -> u64
    ensures { returned result state.new log.new []
        ≡ in_c (notice_of state.old log.old packet.now) }
{
    outcome_word(server_service::notice::notice(state, log, packet))
}

// Gives a point to another server.
#[unsafe(no_mangle)]
pub extern "C" fn mantelorris_give(
    state: &mut [u8],
    log: &mut [u8],
    point: u32,
    destination: u32,
) -> u64
    ensures { returned result state.new log.new []
        ≡ in_c (give_of state.old log.old point destination) }
{
    outcome_word(server_moves::give::give(state, log, point, destination))
}

// The image of a given point.
#[unsafe(no_mangle)]
pub extern "C" fn mantelorris_image(state: &[u8], log: &[u8], point: u32, out: &mut [u8]) -> u64
    ensures { returned result state.now log.now out.new
        ≡ in_c (image_of today state.now log.now point out.old) }
{
    outcome_word(server_moves::image::image(state, log, point, out))
}

// An image: the point is held here.
#[unsafe(no_mangle)]
pub extern "C" fn mantelorris_take(state: &mut [u8], log: &mut [u8], image: &[u8]) -> u64
    ensures { returned result state.new log.new []
        ≡ in_c (take_of state.old log.old image.now) }
{
    outcome_word(server_moves::take::take(state, log, image))
}

// The receipt of the latest taken move.
#[unsafe(no_mangle)]
pub extern "C" fn mantelorris_receipt(state: &[u8], log: &[u8], point: u32, out: &mut [u8]) -> u64
    ensures { returned result state.now log.now out.new
        ≡ in_c (receipt_of state.now log.now point out.old) }
{
    outcome_word(server_moves::receipt::receipt(state, log, point, out))
}

// A receipt packet: the given point is released.
#[unsafe(no_mangle)]
pub extern "C" fn mantelorris_release(state: &mut [u8], log: &mut [u8], packet: &[u8]) -> u64
    ensures { returned result state.new log.new []
        ≡ in_c (release_of state.old log.old packet.now) }
{
    outcome_word(server_moves::release::release(state, log, packet))
}

// The state of a kept log. The log slice is what was kept, no more.
#[unsafe(no_mangle)]
pub extern "C" fn mantelorris_recover(state: &mut [u8], log: &[u8], plan: &[u8]) -> u64
    ensures { returned result state.new log.now []
        ≡ in_c (recover_of state.old log.now plan.now) }
{
    outcome_word(server_recover::recover::recover(state, log, plan))
}

// The state of a checkpoint and the kept tail that follows it. The tail slice is what was kept, no more.
#[unsafe(no_mangle)]
pub extern "C" fn mantelorris_recover_checkpoint(
    state: &mut [u8],
    checkpoint: &[u8],
    tail: &[u8],
) -> u64
    ensures { returned result state.new tail.now []
        ≡ in_c (recover_tail_of state.old checkpoint.now tail.now) }
{
    outcome_word(server_recover::recover_checkpoint::recover_checkpoint(state, checkpoint, tail))
}

// A checkpoint of the state, and the head of the tail that follows it.
#[unsafe(no_mangle)]
pub extern "C" fn mantelorris_checkpoint(
    state: &mut [u8],
    log: &[u8],
    checkpoint: &mut [u8],
    tail: &mut [u8],
) -> u64
    ensures { checkpoint_returned result state.new log.now
        checkpoint.new tail.new
        ≡ checkpoint_in_c (checkpoint_of today state.old log.now
        checkpoint.old tail.old) }
{
    outcome_word(server_checkpoint::checkpoint(state, log, checkpoint, tail))
}

// The end of the last whole record of a kept log: the first of recover's two walks.
#[unsafe(no_mangle)]
pub extern "C" fn mantelorris_log_end(log: &[u8]) -> LogEnd
    ensures { result ≡ log_end_of log.now }
{
    format_log_ends::log_end(log)
}

// Where the latest bytes of a completion record lie, in the tail or in the checkpoint before it; that slice is empty
// before the first checkpoint.
#[unsafe(no_mangle)]
pub extern "C" fn mantelorris_inspect(
    state: &[u8],
    checkpoint: &[u8],
    tail: &[u8],
    client: u32,
    call: u32,
) -> Place
    ensures { result ≡ inspect_of state.now checkpoint.now tail.now client call }
{
    server_inspect::place::place(state, checkpoint, tail, client, call)
}

// ---- the dispatcher

// What serve gives C: the dispatcher after it, and the answer in one word.
#[repr(C)]
#[derive(Clone, Copy)]
pub struct ServeReply {
    pub dispatcher: Dispatcher,
    pub answer: u64,
}

// A dispatcher with nobody waiting.
#[unsafe(no_mangle)]
pub extern "C" fn mantelorris_no_waiting() -> Dispatcher
    ensures { result ≡ no_waiting }
{
    dispatch::no_waiting()
}

// A request packet waits for its turn.
#[unsafe(no_mangle)]
pub extern "C" fn mantelorris_enqueue(dispatcher: Dispatcher, packet: &[u8]) -> Enqueued
    ensures { result ≡ enqueue_of dispatcher packet.now }
{
    dispatch::enqueue(dispatcher, packet)
}

// The request that waits first goes to the server.
#[unsafe(no_mangle)]
pub extern "C" fn mantelorris_serve(
    dispatcher: Dispatcher,
    state: &mut [u8],
    log: &mut [u8],
    out: &mut [u8],
) -> ServeReply
    ensures { serve_returned result.dispatcher result.answer state.new log.new out.new
        ≡ serve_in_c (serve_of today dispatcher state.old log.old out.old) }
{
    let served = dispatch::serve(dispatcher, state, log, out);
    ServeReply {
        dispatcher: served.dispatcher,
        answer: word_of(served.answer),
    }
}
