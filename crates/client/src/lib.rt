// The client (paper: desk): start, issue, resend, receive. Values in and values out; every value of the struct is
// taken. Each operation is made of what it changes (the next number or the lease end, and what stands at one place), so
// that one who is lent a client stores that alone.
#![tactic(auto)]

ghost use Rattle.std.specs.Prelude.{◌≡◌, ◌<◌, length, set, Some};
ghost use Rattle.model.specs.Limits.{last32, call_window};
ghost use Rattle.model.specs.Clients.{no_call, place_of, call_at, least_open, first_open, not_sent, not_received};
ghost use Rattle.model.specs.Clients.{with_call, start_with, start_of, issue_of, resend_of, is_own, receive_with, receive_of};
ghost use Rattle.client.specs.Changes.{start_by, request_with, packet_call, client_packet, OfCall, issued, received};

use model::constants::{CALL_WINDOW, GRANT_SIZE, REFUSAL_SIZE};
use model::{
    Client, Command, OpenCall, Packet, ReceiveAnswer, Received, Refusal, Request, SendAnswer,
    StartAnswer, constants,
};

// ---- what an operation changes

// A started client's numbers: it has no open calls.
#[derive(Clone, Copy, Default)]
pub struct StartFields {
    pub client: u32,
    pub lease: u32,
    pub next: u32,
}

// The next number, and what stands at the place of the one before.
#[derive(Clone, Copy)]
pub struct SendChange {
    pub next: u32,
    pub call: OpenCall,
    pub answer: Result<Request, Refusal>,
}

// The lease end, and what stands at the place of the packet's call.
#[derive(Clone, Copy)]
pub struct ReceiveChange {
    pub lease: u32,
    pub call: OpenCall,
    pub answer: Result<Received, Refusal>,
}

// ---- open calls

pub fn no_call() -> OpenCall
    ensures { result ≡ no_call }
{
    OpenCall {
        call: 0,
        op: 0,
        point: 0,
        argument: 0,
    }
}

pub fn place_of(c: u32) -> usize
    ensures { (result ≡ place_of c) × (result < call_window) }
{
    (c % constants::CALL_WINDOW_U32) as usize
}

pub fn call_at(d: Client, c: u32) -> OpenCall
    ensures { result ≡ call_at d c }
{
    d.calls[place_of(c)]
}

fn least_open(next: u32, ks: [OpenCall; CALL_WINDOW]) -> u32
    ensures { (result ≡ least_open next ks) × (length ks ≡ call_window) }
{
    ks.iter().fold(next, |least, opened| {
        if (1 <= opened.call) & (opened.call < least) {
            opened.call
        } else {
            least
        }
    })
}

pub fn first_open(d: Client) -> u32
    ensures { (result ≡ first_open d) × (length d.calls ≡ call_window) }
{
    least_open(d.next, d.calls)
}

// The open calls with this one at the place of the call c.
fn placed(ks: [OpenCall; CALL_WINDOW], c: u32, opened: OpenCall) -> [OpenCall; CALL_WINDOW]
    ensures { result ≡ set ks (place_of c) opened }
{
    let mut out = ks;
    out[place_of(c)] = opened;
    out
}

fn request_with(d: Client, opened: OpenCall, done: u32) -> Request
    ensures { result ≡ request_with d opened done }
{
    let command = Command {
        client: d.client,
        call: opened.call,
        op: opened.op,
        point: opened.point,
        argument: opened.argument,
    };
    Request {
        command,
        done,
        lease: d.lease,
    }
}

// ---- start

fn started(packet: Packet) -> Result<StartFields, Refusal>
    ensures { start_by result ≡ start_with (Some packet) }
{
    let Packet::Granted(grant) = packet else {
        return Err(Refusal::Malformed);
    };
    Ok(StartFields {
        client: grant.client,
        lease: grant.lease,
        next: 1,
    })
}

// A grant, parsed; any other packet is malformed to start.
fn parse_start(packet: &[u8]) -> Option<Packet>
    ensures { start_with result ≡ start_of packet.now }
{
    if packet.len() != GRANT_SIZE {
        return None;
    }
    if packet[0] != constants::GRANT_KIND {
        return None;
    }
    format_packet_reader::parse_grant(packet)
}

// Start: 1 not a grant. The next number is 1.
pub fn start_fields(packet: &[u8]) -> Result<StartFields, Refusal>
    ensures { start_by result ≡ start_of packet.now }
{
    let Some(parsed) = parse_start(packet) else {
        return Err(Refusal::Malformed);
    };
    started(parsed)
}

// ---- issue, resend: opened is what stands at the call's place

// The first open call once this one is open. Where its place was free, the first is as before.
fn first_with(d: Client, old: OpenCall, opened: OpenCall, first: u32) -> u32
    requires { (old ≡ call_at d d.next) × (opened.call ≡ d.next) × (first ≡ first_open d)
        × (length d.calls ≡ call_window) × (d.next < last32) }
    ensures { result ≡ first_open (with_call d opened) }
{
    if (old.call == 0) & (1 <= opened.call) {
        return first;
    }
    least_open(d.next + 1, placed(d.calls, opened.call, opened))
}

pub fn not_issued(d: Client, opened: OpenCall, refusal: Refusal) -> SendChange
    requires { opened ≡ call_at d d.next }
    ensures { issued d result ≡ not_sent d refusal }
{
    SendChange {
        next: d.next,
        call: opened,
        answer: Err(refusal),
    }
}

// Issue: 1 no such command; 15 the window is full; 16 the last number is used.
pub fn issue_change(d: Client, opened: OpenCall, op: u8, point: u8, argument: u32) -> SendChange
    requires { opened ≡ call_at d d.next }
    ensures { issued d result ≡ issue_of d op point argument }
{
    if !format_numbers::command_ok(op, point, argument) {
        return not_issued(d, opened, Refusal::Malformed);
    }
    let first = first_open(d);
    if first as u64 + constants::CALL_WINDOW_U64 <= d.next as u64 {
        return not_issued(d, opened, Refusal::WindowFull);
    }
    if constants::LAST_32 <= d.next {
        return not_issued(d, opened, Refusal::NumbersOut);
    }
    let call = OpenCall {
        call: d.next,
        op,
        point,
        argument,
    };
    let done = first_with(d, opened, call, first);
    let q = request_with(d, call, done);
    SendChange {
        next: d.next + 1,
        call,
        answer: Ok(q),
    }
}

// Resend: 17 call not open. Nothing changes.
pub fn resend_answer(d: Client, opened: OpenCall, c: u32) -> Result<Request, Refusal>
    requires { opened ≡ call_at d c }
    ensures { record { client = d; answer = result } ≡ resend_of d c }
{
    if (1 <= c) & (opened.call == c) {
        return Ok(request_with(d, opened, first_open(d)));
    }
    Err(Refusal::Unknown)
}

// ---- receive: opened is what stands at the place of c, which is the call of a packet that has one

// The number where a result and a refusal have their call, 0 in a shorter packet.
pub fn packet_call(packet: &[u8]) -> u32
    ensures { result ≡ packet_call packet.now }
{
    if packet.len() < REFUSAL_SIZE {
        return 0;
    }
    format_numbers::read_u32(packet, constants::RESULT_CALL)
}

// A result, a refusal or a grant, parsed; any other packet is malformed to a client.
fn client_packet(packet: &[u8]) -> Option<Packet>
    ensures { result ≡ client_packet packet.now }
{
    if packet.len() == 0 {
        return None;
    }
    match packet[0] {
        constants::FIRST_RESULT_KIND => format_packet_reader::parse_result(packet, false),
        constants::REFUSAL_KIND => format_packet_reader::parse_refusal(packet),
        constants::GRANT_KIND => format_packet_reader::parse_grant(packet),
        constants::RESULT_KIND => format_packet_reader::parse_result(packet, true),
        0 | 1 | 4 | 5 | 8..=255 => None,
    }
}

// The packet is of this client and of an open call on its point.
fn is_own(d: Client, opened: OpenCall, client: u32, call: u32, point: u8) -> bool
    requires { opened ≡ call_at d call }
    ensures { result ≡ is_own d client call point }
{
    (client == d.client) & (((1 <= call) & (opened.call == call)) & (opened.point == point))
}

fn not_received(d: Client, opened: OpenCall, c: u32, refusal: Refusal) -> ReceiveChange
    requires { opened ≡ call_at d c }
    ensures { received d c result ≡ not_received d refusal }
{
    ReceiveChange {
        lease: d.lease,
        call: opened,
        answer: Err(refusal),
    }
}

// Only a result closes its call.
fn taken(d: Client, opened: OpenCall, c: u32, packet: Packet) -> ReceiveChange
    requires { (opened ≡ call_at d c) × OfCall c (Some packet) }
    ensures { received d c result ≡ receive_with d (Some packet) }
{
    let (lease, call, answer) = match packet {
        Packet::Resulted(r) if is_own(d, opened, r.client, r.call, r.point) => {
            (d.lease, no_call(), Received::Completed(r))
        }
        Packet::Refused(r) if is_own(d, opened, r.client, r.call, r.point) => {
            (d.lease, opened, Received::Denied(r))
        }
        Packet::Granted(grant) if (grant.client == d.client) & (d.lease <= grant.lease) => {
            (grant.lease, opened, Received::Extended(grant))
        }
        Packet::Resulted(_) | Packet::Refused(_) | Packet::Granted(_) => {
            return not_received(d, opened, c, Refusal::Unknown);
        }
        _ => return not_received(d, opened, c, Refusal::Malformed),
    };
    ReceiveChange {
        lease,
        call,
        answer: Ok(answer),
    }
}

// Receive: 1 no well-formed result, refusal or grant; 17 not for this client and an open call of it on that point, or a
// lease end that falls.
pub fn receive_change(d: Client, opened: OpenCall, packet: &[u8]) -> ReceiveChange
    requires { opened ≡ call_at d (packet_call packet.now) }
    ensures { received d (packet_call packet.now) result ≡ receive_of d packet.now }
{
    let c = packet_call(packet);
    let Some(parsed) = client_packet(packet) else {
        return not_received(d, opened, c, Refusal::Malformed);
    };
    taken(d, opened, c, parsed)
}

// ---- the operations, by value

pub fn start(packet: &[u8]) -> StartAnswer
    ensures { result ≡ start_of packet.now }
{
    let started = start_fields(packet);
    let fields = started.unwrap_or_default();
    StartAnswer {
        client: Client {
            client: fields.client,
            lease: fields.lease,
            next: fields.next,
            calls: [no_call(); CALL_WINDOW],
        },
        answer: started.map(|_| ()),
    }
}

pub fn issue(d: Client, op: u8, point: u8, argument: u32) -> SendAnswer
    ensures { result ≡ issue_of d op point argument }
{
    let change = issue_change(d, call_at(d, d.next), op, point, argument);
    let calls = placed(d.calls, d.next, change.call);
    SendAnswer {
        client: Client {
            next: change.next,
            calls,
            ..d
        },
        answer: change.answer,
    }
}

pub fn resend(d: Client, c: u32) -> SendAnswer
    ensures { result ≡ resend_of d c }
{
    SendAnswer {
        client: d,
        answer: resend_answer(d, call_at(d, c), c),
    }
}

pub fn receive(d: Client, packet: &[u8]) -> ReceiveAnswer
    ensures { result ≡ receive_of d packet.now }
{
    let c = packet_call(packet);
    let change = receive_change(d, call_at(d, c), packet);
    let calls = placed(d.calls, c, change.call);
    ReceiveAnswer {
        client: Client {
            lease: change.lease,
            calls,
            ..d
        },
        answer: change.answer,
    }
}
