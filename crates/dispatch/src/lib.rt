// The dispatcher above a server: no_waiting, enqueue, serve. Values in and values out; every value of the struct is
// taken. Requests wait in the order they came, at most one of each client, at most 32.
#![tactic(auto)]

ghost use Rattle.std.specs.Prelude.{◌≡◌, [], ◌∷◌, ◌++◌, ◌≤◌, ◌<◌, drop};
ghost use Rattle.model.specs.Versions.{today};
ghost use Rattle.refusals.specs.Numbers.{refusal_of};
ghost use Rattle.dispatch_claim.specs.Dispatcher.{places, no_request, no_waiting, waiting_count, waits, enqueue_refusal, with_last};
ghost use Rattle.dispatch_claim.specs.Dispatcher.{enqueue_request, enqueue_of, first_waiting, shifted, serve_of, after_serve};

use dispatch_claim::{Dispatcher, Enqueued, Served, WAITING_PLACES, WAITING_PLACES_U32};
use model::{Command, Packet, Request, constants};
use refusals::Refusal;

// ---- the places

const LAST_PLACE: usize = WAITING_PLACES - 1;

fn no_request() -> Request
    ensures { result ≡ no_request }
{
    Request {
        command: Command {
            client: 0,
            call: 0,
            op: 0,
            point: 0,
            argument: 0,
        },
        done: 0,
        lease: 0,
    }
}

// Nobody waits.
pub fn no_waiting() -> Dispatcher
    ensures { result ≡ no_waiting }
{
    Dispatcher {
        count: 0,
        requests: [no_request(); WAITING_PLACES],
    }
}

// How many wait.
fn waiting_count(dispatcher: Dispatcher) -> u32
    ensures { result ≡ waiting_count dispatcher }
{
    dispatcher.count.min(WAITING_PLACES_U32)
}

// A request of this client waits.
fn client_waits(dispatcher: Dispatcher, client: u32) -> bool
    ensures { result ≡ waits dispatcher client }
{
    let count = waiting_count(dispatcher) as usize;
    dispatcher.requests[..count]
        .iter()
        .any(|q| q.command.client == client)
}

// ---- enqueue

// 21 its client waits already; 8 all places are taken.
fn enqueue_refusal(dispatcher: Dispatcher, q: Request) -> Result<(), Refusal>
    ensures { refusal_of result ≡ enqueue_refusal dispatcher q }
{
    if client_waits(dispatcher, q.command.client) {
        return Err(Refusal::AlreadyWaiting);
    }
    if WAITING_PLACES_U32 <= dispatcher.count {
        return Err(Refusal::ClientsFull);
    }
    Ok(())
}

fn with_last(dispatcher: Dispatcher, q: Request) -> Dispatcher
    requires { dispatcher.count < places }
    ensures { result ≡ with_last dispatcher q }
{
    let mut next = dispatcher;
    next.requests[dispatcher.count as usize] = q;
    next.count += 1;
    next
}

fn enqueue_request(dispatcher: Dispatcher, q: Request) -> Enqueued
    ensures { result ≡ enqueue_request dispatcher q }
{
    match enqueue_refusal(dispatcher, q) {
        Ok(()) => Enqueued {
            dispatcher: with_last(dispatcher, q),
            number: constants::NO_REFUSAL,
        },
        Err(refusal) => Enqueued {
            dispatcher,
            number: refusal.number(),
        },
    }
}

// 1 malformed, or no request; 21; 8; else it waits behind the others.
pub fn enqueue(dispatcher: Dispatcher, packet: &[u8]) -> Enqueued
    ensures { result ≡ enqueue_of dispatcher packet.now }
{
    let Some(parsed) = format_packet_reader::parse_packet(packet) else {
        return Enqueued {
            dispatcher,
            number: Refusal::Malformed.number(),
        };
    };
    let Packet::Requested(q) = parsed else {
        return Enqueued {
            dispatcher,
            number: Refusal::Malformed.number(),
        };
    };
    enqueue_request(dispatcher, q)
}

// ---- serve

fn first_waiting(dispatcher: Dispatcher) -> Request
    ensures { result ≡ first_waiting dispatcher }
{
    dispatcher.requests[0]
}

// All move one place to the front; the last place is free.
fn moved_up(requests: [Request; WAITING_PLACES]) -> [Request; WAITING_PLACES]
    ensures { result ≡ drop 1 requests ++ (no_request ∷ []) }
{
    // copy_from_slice would call memmove: the library needs no C function but memcpy and memset.
    let mut moved = requests;
    for i in 0..LAST_PLACE {
        moved[i] = requests[i + 1];
    }
    moved[LAST_PLACE] = no_request();
    moved
}

fn without_first(dispatcher: Dispatcher) -> Dispatcher
    requires { 1 ≤ dispatcher.count }
    ensures { result ≡ shifted dispatcher }
{
    Dispatcher {
        count: waiting_count(dispatcher) - 1,
        requests: moved_up(dispatcher.requests),
    }
}

// 17 nobody waits; else the first request is the server's, its answer the serving's, and its place is free.
pub fn serve(dispatcher: Dispatcher, s: &mut [u8], log: &mut [u8], out: &mut [u8]) -> Served
    ensures { after_serve result s.new log.new out.new
        ≡ serve_of today dispatcher s.old log.old out.old }
{
    if dispatcher.count == 0 {
        return Served {
            dispatcher,
            answer: refusals::answer(Err(Refusal::Unknown)),
        };
    }
    let q = first_waiting(dispatcher);
    let packet = format_packet_writer::request_packet(q);
    let outcome = server_service::request::request(s, log, &packet, out);
    Served {
        dispatcher: without_first(dispatcher),
        answer: refusals::request_answer(outcome),
    }
}
