// A client's request to a running server: decided on the state, then refused with a packet, answered, or executed. It
// answers and leaves its lent slices as its definition says, for all arguments.
ghost use Rattle.std.specs.Prelude.{◌≡◌, true, ◌+◌, ◌≤◌, length};
ghost use Rattle.model.specs.Limits.{last_point, executed_size, refusal_size, result_size};
ghost use Rattle.model.specs.Tables.{written};
ghost use Rattle.model.specs.Refusals.{last_denied};
ghost use Rattle.model.specs.Packets.{refusal_bytes};
ghost use Rattle.model.specs.Images.{floor_of};
ghost use Rattle.model.specs.States.{load, state_end};
ghost use Rattle.model.specs.Versions.{today};
ghost use Rattle.model.specs.Decisions.{executed_for, on_held, on_new, decide_request};
ghost use Rattle.model.specs.Operations.{after, request_of};
ghost use Rattle.refusals.specs.Numbers.{number_of, denied, request_answered};
ghost use Rattle.model_invariants.specs.Sound.{GoodRequest};
ghost use Rattle.state_rows.specs.Canonical.{Canonical};
ghost use Rattle.server_apply.specs.Room.{Room};
ghost use Rattle.server_memory.specs.Memory.{Fit, settled_by};
ghost use Rattle.server_service.specs.Decisions.{decided, refusal_for, requested_by, Executes};

use model::{
    CommandResult, Completion, Executed, Packet, Reading, RefusalPacket, Request, constants,
};
use refusals::{Denied, Refusal};
use state_rows::state;

// What is decided on a request that is not refused.
#[derive(Clone, Copy)]
pub enum Decision {
    // the completion record whose result packet is the answer
    Reply(Completion),
    // the record to be logged and applied
    Execute(Executed),
}

// ---- deciding

// An id that is held: 6 with another op, point or argument; 7 not synced; else its result.
fn held_decision(s: &[u8], q: Request, completion: Completion) -> Result<Decision, Refusal>
    requires { state_end ≤ length s.now }
    ensures { decided result ≡ on_held today (load s.now) q completion }
{
    let mark = state::mark_of(s);
    server_decide::held_refusal(mark, q, completion)?;
    Ok(Decision::Reply(completion))
}

// The record of the command's execution; its time is the heard time.
fn executed_for(s: &[u8], q: Request) -> Executed
    requires { (state_end ≤ length s.now) × GoodRequest q }
    ensures { result ≡ executed_for today (load s.now) q }
{
    let e = state::entry_at(s, q.command.point);
    let x = state::point_at(s, q.command.point);
    let outcome = format_commands::checked_rule(
        e,
        q.command.op,
        q.command.argument,
        Reading {
            value: x.value,
            quality: x.quality,
        },
    );
    let heard = state::heard_of(s);
    let command = q.command;
    Executed {
        command,
        done: q.done,
        result: CommandResult {
            time: heard,
            ..outcome
        },
        timed: true,
    }
}

// An id without a completion record: 8 no place for its client; 9 no space for its record; else the command is
// executed.
fn new_decision(s: &[u8], floor: u32, free: usize, q: Request) -> Result<Decision, Refusal>
    requires { (state_end ≤ length s.now) × GoodRequest q
        × (floor ≡ floor_of q.command.client (load s.now).floors) }
    ensures { decided result ≡ on_new today (load s.now) free q }
{
    let clients = state::clients_of(s);
    server_decide::new_refusal(floor, clients, free)?;
    let executed = executed_for(s, q);
    Ok(Decision::Execute(executed))
}

// 3 the point is elsewhere; 4 the lease is over; 5 below the floor; then by whether the id is held.
fn request_decision(s: &[u8], free: usize, q: Request) -> Result<Decision, Refusal>
    requires { Canonical s.now × GoodRequest q }
    ensures { decided result ≡ decide_request today (load s.now) free q }
{
    let x = state::point_at(s, q.command.point);
    let heard = state::heard_of(s);
    let floor = state_clients::floor_in(s, q.command.client);
    server_decide::request_refusal(x, q.lease <= heard, floor, q.command.call)?;
    match state_records::find(s, q.command.client, q.command.call) {
        None => new_decision(s, floor, free, q),
        Some(r) => held_decision(s, q, r),
    }
}

// ---- carrying it out

// Writes the refusal packet.
fn deny(out: &mut [u8], refusal: Refusal, q: Request) -> Denied
    requires { (number_of refusal ≤ last_denied) × (refusal_size ≤ length out.old) }
    ensures { (result ≡ denied refusal refusal_size)
        × (out.new ≡ written out.old 0 (refusal_bytes (refusal_for (number_of refusal) q))) }
{
    let packet = RefusalPacket {
        refusal: refusal.number() as u8,
        point: q.command.point,
        client: q.command.client,
        call: q.command.call,
    };
    format_packet_writer::write_refusal(out, packet);
    Denied {
        refusal,
        wrote: constants::REFUSAL_SIZE_U32,
    }
}

// Logs and applies the record.
fn execute(s: &mut [u8], log: &mut [u8], executed: Executed)
    requires { Canonical s.old × (executed.command.point ≤ last_point) × Room executed (load s.old)
        × ((load s.old).size + executed_size ≤ length log.old) × (executed.timed ≡ true) }
    ensures { Executes executed s.old log.old s.new log.new }
{
    let size = state::size_of(s);
    format_log_writer::append(log, size as usize, executed);
    server_apply::apply_executed(s, executed, size + constants::EXECUTED_SIZE_U64);
}

// A well-formed request, once the tests of lent memory are passed.
fn requested(s: &mut [u8], log: &mut [u8], q: Request, out: &mut [u8]) -> Result<u32, Denied>
    requires { Fit s.old log.old (length out.old) result_size × GoodRequest q }
    ensures { after (request_answered result) s.new log.new out.new
        ≡ settled_by (requested_by q) s.old log.old out.old }
{
    let free = server_memory::free_in(s, log);
    let decision = match request_decision(s, free, q) {
        Ok(decision) => decision,
        Err(refusal) => return Err(deny(out, refusal, q)),
    };
    match decision {
        Decision::Reply(completion) => Ok(crate::reply::reply(out, completion)),
        Decision::Execute(executed) => {
            execute(s, log, executed);
            Ok(0)
        }
    }
}

// 2; 19; 1 malformed or no request; 3 to 9, each with a refusal packet; held and synced: the result packet; else it is
// executed, with no packet.
pub fn request(s: &mut [u8], log: &mut [u8], packet: &[u8], out: &mut [u8]) -> Result<u32, Denied>
    ensures { after (request_answered result) s.new log.new out.new
        ≡ request_of today s.old log.old packet.now out.old }
{
    server_memory::lent_refusal(s, log, out.len(), constants::RESULT_SIZE)?;
    let Some(parsed) = format_packet_reader::parse_packet(packet) else {
        return Err(Refusal::Malformed.into());
    };
    let Packet::Requested(q) = parsed else {
        return Err(Refusal::Malformed.into());
    };
    requested(s, log, q, out)
}
