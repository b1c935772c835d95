// The calls of clients and the lease manager as C links them (include/mantelorris_client.h): each is client_c's, with
// its clauses. client_c itself is a library of Rattle, since chamber_c stands on it too, and a library exports nothing.
#![tactic(auto)]

ghost use Rattle.std.specs.Prelude.{◌≡◌};
ghost use Rattle.model.specs.Numbers.{flip};
ghost use Rattle.model.specs.Clients.{start_of, issue_of, resend_of, receive_of};
ghost use Rattle.model.specs.Leases.{new_manager, open_of, renew_of, query_of};
ghost use Rattle.client_c.specs.Replies.{start_reply, send_reply, receive_reply, lease_reply};

use client_c::{LeaseReply, ReceiveReply, SendReply, StartReply};
use model::{Client, LeaseManager};

// ---- clients

#[unsafe(no_mangle)]
pub extern "C" fn mantelorris_start(packet: &[u8]) -> StartReply
    ensures { result ≡ start_reply (start_of packet.now) }
{
    client_c::mantelorris_start(packet)
}

#[unsafe(no_mangle)]
pub extern "C" fn mantelorris_issue(d: &mut Client, op: u32, point: u32, argument: u32) -> SendReply
    ensures { (result ≡ send_reply (issue_of d.old op point (flip argument)).answer)
        × (d.new ≡ (issue_of d.old op point (flip argument)).client) }
{
    client_c::mantelorris_issue(d, op, point, argument)
}

#[unsafe(no_mangle)]
pub extern "C" fn mantelorris_resend(d: &mut Client, call: u32) -> SendReply
    ensures { (result ≡ send_reply (resend_of d.old call).answer)
        × (d.new ≡ (resend_of d.old call).client) }
{
    client_c::mantelorris_resend(d, call)
}

#[unsafe(no_mangle)]
pub extern "C" fn mantelorris_receive(d: &mut Client, packet: &[u8]) -> ReceiveReply
    ensures { (result ≡ receive_reply (receive_of d.old packet.now).answer)
        × (d.new ≡ (receive_of d.old packet.now).client) }
{
    client_c::mantelorris_receive(d, packet)
}

// ---- the lease manager

#[unsafe(no_mangle)]
pub extern "C" fn mantelorris_leases() -> LeaseManager
    ensures { result ≡ new_manager }
{
    client_c::mantelorris_leases()
}

#[unsafe(no_mangle)]
pub extern "C" fn mantelorris_open(m: &mut LeaseManager, time: u32, span: u32) -> LeaseReply
    ensures { (result ≡ lease_reply (open_of m.old time span).answer)
        × (m.new ≡ (open_of m.old time span).manager) }
{
    client_c::mantelorris_open(m, time, span)
}

#[unsafe(no_mangle)]
pub extern "C" fn mantelorris_renew(
    m: &mut LeaseManager,
    client: u32,
    time: u32,
    span: u32,
) -> LeaseReply
    ensures { (result ≡ lease_reply (renew_of m.old client time span).answer)
        × (m.new ≡ (renew_of m.old client time span).manager) }
{
    client_c::mantelorris_renew(m, client, time, span)
}

#[unsafe(no_mangle)]
pub extern "C" fn mantelorris_query(m: &mut LeaseManager, client: u32, time: u32) -> LeaseReply
    ensures { (result ≡ lease_reply (query_of m.old client time).answer)
        × (m.new ≡ (query_of m.old client time).manager) }
{
    client_c::mantelorris_query(m, client, time)
}
