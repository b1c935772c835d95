// The client and the lease manager for a host program in C: numbers, structs with C's layout, byte slices. A signed
// number is in two's complement here.
#![tactic(auto)]

ghost use Rattle.std.specs.Prelude.{◌≡◌, ◌<◌};
ghost use Rattle.model.specs.Numbers.{flip};
ghost use Rattle.model.specs.Limits.{lease_count};
ghost use Rattle.model.specs.Clients.{no_call, call_at, start_of, issue_of, resend_of, receive_of};
ghost use Rattle.model.specs.Leases.{new_manager, open_of, renew_of, query_of};
ghost use Rattle.client.specs.Changes.{issued};
ghost use Rattle.leases.specs.Changes.{answered};
ghost use Rattle.client_c.specs.Replies.{start_reply, numbered, send_reply, send_reply_by, receive_reply, receive_reply_by, Placed, lease_reply};

use client::SendChange;
use leases::LeaseChange;
use model::{Client, Lease, LeaseManager, OpenCall, Received, Refusal, Request, Told, constants};

// ---- what C is given

// number: 0 or the refusal's.
#[repr(C)]
#[derive(Clone, Copy)]
pub struct StartReply {
    pub client: Client,
    pub number: u32,
}

// number: 0 or the refusal's. call: the request's. length: of the request in packet. Both are 0 where refused.
#[repr(C)]
#[derive(Clone, Copy)]
pub struct SendReply {
    pub number: u32,
    pub call: u32,
    pub length: u32,
    pub packet: [u8; constants::REQUEST_SIZE],
}

// number: 0 or the refusal's. kind: 7 a result in either form, with its time; 3 a refusal, its number in refusal; 6 a
// grant, its end in lease.
#[repr(C)]
#[derive(Clone, Copy, Default)]
pub struct ReceiveReply {
    pub number: u32,
    pub kind: u32,
    pub call: u32,
    pub value: u32,
    pub lease: u32,
    pub point: u8,
    pub outcome: u8,
    pub quality: u8,
    pub refusal: u8,
    pub time: u32,
}

// number: 0 or the refusal's. kind: 6 a grant, 5 a notice. length: of it in packet. Both are 0 where refused.
#[repr(C)]
#[derive(Clone, Copy)]
pub struct LeaseReply {
    pub number: u32,
    pub kind: u32,
    pub length: u32,
    pub packet: [u8; constants::GRANT_SIZE],
}

// ---- replies, by value

// An answer with its refusal's number in the refusal's place, as C is told it.
pub fn numbered<A>(answer: Result<A, Refusal>) -> Result<A, u32>
    ensures { result ≡ numbered answer }
{
    answer.map_err(|refusal| refusal.number())
}

pub fn send_reply(answer: Result<Request, u32>) -> SendReply
    ensures { result ≡ send_reply_by answer }
{
    match answer {
        Err(number) => SendReply {
            number,
            call: 0,
            length: 0,
            packet: [0u8; constants::REQUEST_SIZE],
        },
        Ok(q) => SendReply {
            number: constants::NO_REFUSAL,
            call: q.command.call,
            length: constants::REQUEST_SIZE_U32,
            packet: format_packet_writer::request_packet(q),
        },
    }
}

pub fn receive_reply(answer: Result<Received, u32>) -> ReceiveReply
    ensures { result ≡ receive_reply_by answer }
{
    let none = ReceiveReply::default();
    match answer {
        Err(number) => ReceiveReply { number, ..none },
        Ok(Received::Completed(packet)) => ReceiveReply {
            kind: constants::RESULT_KIND_U32,
            call: packet.call,
            value: format_numbers::flipped(packet.result.value),
            point: packet.point,
            outcome: packet.result.outcome,
            quality: packet.result.quality,
            time: packet.result.time,
            ..none
        },
        Ok(Received::Denied(packet)) => ReceiveReply {
            kind: constants::REFUSAL_KIND_U32,
            call: packet.call,
            point: packet.point,
            refusal: packet.refusal,
            ..none
        },
        Ok(Received::Extended(grant)) => ReceiveReply {
            kind: constants::GRANT_KIND_U32,
            lease: grant.lease,
            ..none
        },
    }
}

fn lease_reply(answer: Result<Told, Refusal>) -> LeaseReply
    ensures { result ≡ lease_reply answer }
{
    match answer {
        Err(refusal) => LeaseReply {
            number: refusal.number(),
            kind: 0,
            length: 0,
            packet: [0u8; constants::GRANT_SIZE],
        },
        Ok(Told::ByGrant(grant)) => LeaseReply {
            number: constants::NO_REFUSAL,
            kind: constants::GRANT_KIND_U32,
            length: constants::GRANT_SIZE_U32,
            packet: format_packet_writer::grant_packet(grant),
        },
        Ok(Told::ByNotice(notice)) => LeaseReply {
            number: constants::NO_REFUSAL,
            kind: constants::NOTICE_KIND_U32,
            length: constants::NOTICE_SIZE_U32,
            packet: format_packet_writer::notice_packet(notice),
        },
    }
}

// The argument in two's complement; an op or a point past a byte is malformed, as any past its range. opened is what
// stands at the call's place.
fn issue_change(d: Client, opened: OpenCall, op: u32, point: u32, argument: u32) -> SendChange
    requires { opened ≡ call_at d d.next }
    ensures { issued d result ≡ issue_of d op point (flip argument) }
{
    let (Ok(op), Ok(point)) = (u8::try_from(op), u8::try_from(point)) else {
        return client::not_issued(d, opened, Refusal::Malformed);
    };
    client::issue_change(d, opened, op, point, format_numbers::flipped(argument))
}

// The place of the packet's call.
fn packet_place(packet: &[u8]) -> usize
    ensures { Placed packet.now result }
{
    client::place_of(client::packet_call(packet))
}

// ---- for C: the client. Start makes one; the others are lent it, and store what changes.

// Always a place. Since it might be the number, which lies over op, point, the padding behind them and the argument,
// the compiler takes these as a word.
#[derive(Clone, Copy)]
enum Slot {
    Number(u64),
    Place(OpenCall),
}

// A free place in words, without a gap: start stores sixteen bytes at a time. Tried, and slower: field by field, past
// the padding, it takes half as long again.
fn whole_place() -> OpenCall
    ensures { result ≡ no_call }
{
    let none = client::no_call();
    let slot = Slot::Place(none);
    match slot {
        Slot::Place(opened) => opened,
        Slot::Number(_n) => none,
    }
}

#[unsafe(no_mangle)]
pub extern "C" fn mantelorris_start(packet: &[u8]) -> StartReply
    ensures { result ≡ start_reply (start_of packet.now) }
{
    let started = client::start_fields(packet);
    let fields = started.unwrap_or_default();
    StartReply {
        client: Client {
            client: fields.client,
            lease: fields.lease,
            next: fields.next,
            calls: [whole_place(); constants::CALL_WINDOW],
        },
        number: match started {
            Ok(_) => constants::NO_REFUSAL,
            Err(refusal) => refusal.number(),
        },
    }
}

#[unsafe(no_mangle)]
pub extern "C" fn mantelorris_issue(d: &mut Client, op: u32, point: u32, argument: u32) -> SendReply
    ensures { (result ≡ send_reply (issue_of d.old op point (flip argument)).answer)
        × (d.new ≡ (issue_of d.old op point (flip argument)).client) }
{
    let i = client::place_of(d.next);
    let change = issue_change(*d, d.calls[i], op, point, argument);
    d.next = change.next;
    d.calls[i] = change.call;
    send_reply(numbered(change.answer))
}

#[unsafe(no_mangle)]
pub extern "C" fn mantelorris_resend(d: &mut Client, call: u32) -> SendReply
    ensures { (result ≡ send_reply (resend_of d.old call).answer)
        × (d.new ≡ (resend_of d.old call).client) }
{
    let i = client::place_of(call);
    send_reply(numbered(client::resend_answer(*d, d.calls[i], call)))
}

#[unsafe(no_mangle)]
pub extern "C" fn mantelorris_receive(d: &mut Client, packet: &[u8]) -> ReceiveReply
    ensures { (result ≡ receive_reply (receive_of d.old packet.now).answer)
        × (d.new ≡ (receive_of d.old packet.now).client) }
{
    let i = packet_place(packet);
    let change = client::receive_change(*d, d.calls[i], packet);
    d.lease = change.lease;
    d.calls[i] = change.call;
    receive_reply(numbered(change.answer))
}

// ---- for C: the lease manager. It is made once and lent; what changes is stored.

#[unsafe(no_mangle)]
pub extern "C" fn mantelorris_leases() -> LeaseManager
    ensures { result ≡ new_manager }
{
    let lease = Lease {
        client: 0,
        lease: 0,
    };
    LeaseManager {
        time: 0,
        issued: 0,
        leases: [lease; constants::LEASE_COUNT],
    }
}

// Stores what a call changes: all anew where leases have ended, else time, latest number and one place.
fn store_change(m: &mut LeaseManager, change: LeaseChange)
    requires { change.place < lease_count }
    ensures { m.new ≡ (answered m.old change).manager }
{
    if change.ended {
        *m = leases::stored(*m, change);
        return;
    }
    m.time = change.time;
    m.issued = change.issued;
    m.leases[change.place] = change.lease;
}

#[unsafe(no_mangle)]
pub extern "C" fn mantelorris_open(m: &mut LeaseManager, time: u32, span: u32) -> LeaseReply
    ensures { (result ≡ lease_reply (open_of m.old time span).answer)
        × (m.new ≡ (open_of m.old time span).manager) }
{
    let change = leases::open_change(*m, time, span);
    store_change(m, change);
    lease_reply(change.answer)
}

#[unsafe(no_mangle)]
pub extern "C" fn mantelorris_renew(
    m: &mut LeaseManager,
    client: u32,
    time: u32,
    span: u32,
) -> LeaseReply
    ensures { (result ≡ lease_reply (renew_of m.old client time span).answer)
        × (m.new ≡ (renew_of m.old client time span).manager) }
{
    let change = leases::renew_change(*m, client, time, span);
    store_change(m, change);
    lease_reply(change.answer)
}

#[unsafe(no_mangle)]
pub extern "C" fn mantelorris_query(m: &mut LeaseManager, client: u32, time: u32) -> LeaseReply
    ensures { (result ≡ lease_reply (query_of m.old client time).answer)
        × (m.new ≡ (query_of m.old client time).manager) }
{
    let change = leases::query_change(*m, client, time);
    store_change(m, change);
    lease_reply(change.answer)
}
