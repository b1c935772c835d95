// The lock chamber controller for a host program in C: numbers, structs with C's layout, byte slices. A signed number
// is in two's complement here. The controller is given and returned by value.
#![tactic(auto)]

ghost use Rattle.std.specs.Prelude.{◌≡◌};
ghost use Rattle.model.specs.Numbers.{flip};
ghost use Rattle.model.specs.Clients.{start_number};
ghost use Rattle.chamber_claim.specs.Chamber.{start_in, issue_in, resend_in, receive_in};
ghost use Rattle.chamber_c.specs.Replies.{start_reply_in, send_reply_in, receive_reply_in};

use chamber_claim::{Chamber, ChamberReceive, ChamberSend, ChamberStart, LockPoints};
use client_c::{ReceiveReply, SendReply};
use model::{Refusal, constants};

// ---- what C is given

// number: 0 or the refusal's.
#[repr(C)]
#[derive(Clone, Copy)]
pub struct ChamberStartReply {
    pub chamber: Chamber,
    pub number: u32,
}

#[repr(C)]
#[derive(Clone, Copy)]
pub struct ChamberSendReply {
    pub chamber: Chamber,
    pub reply: SendReply,
}

#[repr(C)]
#[derive(Clone, Copy)]
pub struct ChamberReceiveReply {
    pub chamber: Chamber,
    pub reply: ReceiveReply,
}

// ---- replies

fn start_number(answer: Result<(), Refusal>) -> u32
    ensures { result ≡ start_number answer }
{
    match answer {
        Ok(()) => constants::NO_REFUSAL,
        Err(refusal) => refusal.number(),
    }
}

fn start_reply(started: ChamberStart<Refusal>) -> ChamberStartReply
    ensures { result ≡ start_reply_in started }
{
    ChamberStartReply {
        chamber: started.chamber,
        number: start_number(started.answer),
    }
}

fn send_reply(sent: ChamberSend<Refusal>) -> ChamberSendReply
    ensures { result ≡ send_reply_in sent }
{
    ChamberSendReply {
        chamber: sent.chamber,
        reply: client_c::send_reply(client_c::numbered(sent.answer)),
    }
}

fn receive_reply(received: ChamberReceive) -> ChamberReceiveReply
    ensures { result ≡ receive_reply_in received }
{
    ChamberReceiveReply {
        chamber: received.chamber,
        reply: client_c::receive_reply(client_c::numbered(received.answer)),
    }
}

// ---- for C

// A point past a byte is malformed, as any past its range.
#[unsafe(no_mangle)]
pub extern "C" fn mantelorris_chamber_start(
    packet: &[u8],
    upper: u32,
    lower: u32,
    level1: u32,
    level2: u32,
    level3: u32,
) -> ChamberStartReply
    ensures { result ≡ start_reply_in (start_in packet.now
        (record { upper = upper; lower = lower; level1 = level1; level2 = level2; level3 = level3 })) }
{
    let (Ok(upper), Ok(lower), Ok(level1), Ok(level2), Ok(level3)) = (
        u8::try_from(upper),
        u8::try_from(lower),
        u8::try_from(level1),
        u8::try_from(level2),
        u8::try_from(level3),
    ) else {
        return start_reply(chamber::not_started(Refusal::Malformed));
    };
    let points = LockPoints {
        upper,
        lower,
        level1,
        level2,
        level3,
    };
    start_reply(chamber::start(packet, points))
}

// The argument in two's complement; an op or a point past a byte is malformed, as any past its range.
#[unsafe(no_mangle)]
pub extern "C" fn mantelorris_chamber_issue(
    chamber: Chamber,
    op: u32,
    point: u32,
    argument: u32,
) -> ChamberSendReply
    ensures { result ≡ send_reply_in (issue_in chamber op point (flip argument)) }
{
    let (Ok(op), Ok(point)) = (u8::try_from(op), u8::try_from(point)) else {
        return send_reply(chamber::not_sent(chamber, Refusal::Malformed));
    };
    let sent = chamber::issue(chamber, op, point, format_numbers::flipped(argument));
    send_reply(sent)
}

#[unsafe(no_mangle)]
pub extern "C" fn mantelorris_chamber_resend(chamber: Chamber, call: u32) -> ChamberSendReply
    ensures { result ≡ send_reply_in (resend_in chamber call) }
{
    send_reply(chamber::resend(chamber, call))
}

#[unsafe(no_mangle)]
pub extern "C" fn mantelorris_chamber_receive(
    chamber: Chamber,
    packet: &[u8],
) -> ChamberReceiveReply
    ensures { result ≡ receive_reply_in (receive_in chamber packet.now) }
{
    receive_reply(chamber::receive(chamber, packet))
}
