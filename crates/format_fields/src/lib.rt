// The fields of the packets: their places and ranges.
#![tactic(auto)]

ghost use Rattle.std.specs.Prelude.{◌≡◌, ◌≤◌, length};
ghost use Rattle.model.specs.Limits.{request_size, refusal_size, receipt_size, notice_size, grant_size};
ghost use Rattle.model.specs.Packets.{result_size_of, request_at, result_at, refusal_at, receipt_at, notice_at, grant_at};
ghost use Rattle.model.specs.Packets.{request_ok, result_ok, refusal_ok, receipt_ok, notice_ok, grant_ok};

use model::{
    Command, CommandResult, Grant, Notice, Receipt, RefusalPacket, Request, ResultPacket, constants,
};

// ---- in their ranges

pub fn request_ok(q: Request) -> bool
    ensures { result ≡ request_ok q }
{
    let command = format_numbers::command_ok(q.command.op, q.command.point, q.command.argument);
    let id = format_numbers::id_ok(q.command.client, q.command.call);
    let done = format_numbers::done_ok(q.done, q.command.call);
    command & (id & done)
}

pub fn result_ok(packet: ResultPacket) -> bool
    ensures { result ≡ result_ok packet }
{
    let outcome = format_numbers::outcome_ok(packet.result.outcome, packet.result.quality);
    let id = format_numbers::id_ok(packet.client, packet.call);
    (packet.point <= constants::LAST_POINT) & (outcome & id)
}

pub fn refusal_ok(packet: RefusalPacket) -> bool
    ensures { result ≡ refusal_ok packet }
{
    let id = format_numbers::id_ok(packet.client, packet.call);
    (constants::FIRST_DENIED <= packet.refusal)
        & ((packet.refusal <= constants::LAST_DENIED)
            & ((packet.point <= constants::LAST_POINT) & id))
}

pub fn receipt_ok(receipt: Receipt) -> bool
    ensures { result ≡ receipt_ok receipt }
{
    (receipt.point <= constants::LAST_POINT) & (receipt.server <= constants::LAST_SERVER)
}

pub fn notice_ok(notice: Notice) -> bool
    ensures { result ≡ notice_ok notice }
{
    1 <= notice.client
}

pub fn grant_ok(grant: Grant) -> bool
    ensures { result ≡ grant_ok grant }
{
    1 <= grant.client
}

// ---- at their places

pub fn request_at(packet: &[u8]) -> Request
    requires { request_size ≤ length packet.now }
    ensures { result ≡ request_at packet.now }
{
    let command = Command {
        client: format_numbers::read_u32(packet, constants::REQUEST_CLIENT),
        call: format_numbers::read_u32(packet, constants::REQUEST_CALL),
        op: packet[constants::REQUEST_OP],
        point: packet[constants::REQUEST_POINT],
        argument: format_numbers::read_signed(packet, constants::REQUEST_ARGUMENT),
    };
    Request {
        command,
        done: format_numbers::read_u32(packet, constants::REQUEST_DONE),
        lease: format_numbers::read_u32(packet, constants::REQUEST_LEASE),
    }
}

// By its form: with a time, or without one.
pub fn result_at(packet: &[u8], timed: bool) -> ResultPacket
    requires { result_size_of timed ≤ length packet.now }
    ensures { result ≡ result_at timed packet.now }
{
    let result = CommandResult {
        outcome: packet[constants::RESULT_OUTCOME],
        value: format_numbers::read_signed(packet, constants::RESULT_VALUE),
        quality: packet[constants::RESULT_QUALITY],
        time: format_numbers::time_at(packet, timed, constants::RESULT_TIME),
    };
    ResultPacket {
        client: format_numbers::read_u32(packet, constants::RESULT_CLIENT),
        call: format_numbers::read_u32(packet, constants::RESULT_CALL),
        point: packet[constants::RESULT_POINT],
        result,
        timed,
    }
}

pub fn refusal_at(packet: &[u8]) -> RefusalPacket
    requires { refusal_size ≤ length packet.now }
    ensures { result ≡ refusal_at packet.now }
{
    RefusalPacket {
        refusal: packet[constants::REFUSAL_NUMBER],
        point: packet[constants::REFUSAL_POINT],
        client: format_numbers::read_u32(packet, constants::REFUSAL_CLIENT),
        call: format_numbers::read_u32(packet, constants::REFUSAL_CALL),
    }
}

pub fn receipt_at(packet: &[u8]) -> Receipt
    requires { receipt_size ≤ length packet.now }
    ensures { result ≡ receipt_at packet.now }
{
    Receipt {
        point: packet[constants::RECEIPT_POINT],
        server: packet[constants::RECEIPT_SERVER],
        move_number: format_numbers::read_u32(packet, constants::RECEIPT_MOVE),
    }
}

// Log record 2 has the same fields.
pub fn notice_at(packet: &[u8]) -> Notice
    requires { notice_size ≤ length packet.now }
    ensures { result ≡ notice_at packet.now }
{
    Notice {
        client: format_numbers::read_u32(packet, constants::NOTICE_CLIENT),
        time: format_numbers::read_u32(packet, constants::NOTICE_TIME),
    }
}

pub fn grant_at(packet: &[u8]) -> Grant
    requires { grant_size ≤ length packet.now }
    ensures { result ≡ grant_at packet.now }
{
    Grant {
        client: format_numbers::read_u32(packet, constants::GRANT_CLIENT),
        lease: format_numbers::read_u32(packet, constants::GRANT_LEASE),
    }
}
