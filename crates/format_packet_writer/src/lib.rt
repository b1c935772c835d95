// The packets as they are written, into the front of a lent slice and by value. Bytes past a packet are kept.
#![tactic(auto)]

ghost use Rattle.std.specs.Prelude.{◌≡◌, true, ◌≤◌, length};
ghost use Rattle.model.specs.Tables.{written};
ghost use Rattle.model.specs.Limits.{notice_kind, request_size, result_size, refusal_size, receipt_size, notice_size, grant_size};
ghost use Rattle.model.specs.Packets.{request_bytes, result_bytes, refusal_bytes, receipt_bytes, notice_bytes, grant_bytes};

use model::{Grant, Notice, Receipt, RefusalPacket, Request, ResultPacket, constants};

// ---- into a lent slice

fn write_request(out: &mut [u8], q: Request)
    requires { request_size ≤ length out.old }
    ensures { out.new ≡ written out.old 0 (request_bytes q) }
{
    format_numbers::write_4(
        out,
        0,
        constants::REQUEST_KIND,
        q.command.op,
        q.command.point,
        0,
    );
    format_numbers::write_u32(out, constants::REQUEST_CLIENT, q.command.client);
    format_numbers::write_u32(out, constants::REQUEST_CALL, q.command.call);
    format_numbers::write_u32(out, constants::REQUEST_DONE, q.done);
    format_numbers::write_u32(out, constants::REQUEST_LEASE, q.lease);
    format_numbers::write_signed(out, constants::REQUEST_ARGUMENT, q.command.argument);
}

// In the form with a time, the only one that is written.
pub fn write_result(out: &mut [u8], packet: ResultPacket)
    requires { (result_size ≤ length out.old) × (packet.timed ≡ true) }
    ensures { out.new ≡ written out.old 0 (result_bytes packet) }
{
    format_numbers::write_4(
        out,
        0,
        constants::RESULT_KIND,
        packet.result.outcome,
        packet.point,
        packet.result.quality,
    );
    format_numbers::write_u32(out, constants::RESULT_CLIENT, packet.client);
    format_numbers::write_u32(out, constants::RESULT_CALL, packet.call);
    format_numbers::write_signed(out, constants::RESULT_VALUE, packet.result.value);
    format_numbers::write_u32(out, constants::RESULT_TIME, packet.result.time);
}

pub fn write_refusal(out: &mut [u8], packet: RefusalPacket)
    requires { refusal_size ≤ length out.old }
    ensures { out.new ≡ written out.old 0 (refusal_bytes packet) }
{
    format_numbers::write_4(
        out,
        0,
        constants::REFUSAL_KIND,
        packet.refusal,
        packet.point,
        0,
    );
    format_numbers::write_u32(out, constants::REFUSAL_CLIENT, packet.client);
    format_numbers::write_u32(out, constants::REFUSAL_CALL, packet.call);
}

pub fn write_receipt(out: &mut [u8], receipt: Receipt)
    requires { receipt_size ≤ length out.old }
    ensures { out.new ≡ written out.old 0 (receipt_bytes receipt) }
{
    format_numbers::write_4(
        out,
        0,
        constants::RECEIPT_KIND,
        receipt.point,
        receipt.server,
        0,
    );
    format_numbers::write_u32(out, constants::RECEIPT_MOVE, receipt.move_number);
}

// Kind 5; log record 2 is the same with its own kind.
pub fn write_notice(out: &mut [u8], kind: u8, notice: Notice)
    requires { notice_size ≤ length out.old }
    ensures { out.new ≡ written out.old 0 (notice_bytes kind notice) }
{
    format_numbers::write_4(out, 0, kind, 0, 0, 0);
    format_numbers::write_u32(out, constants::NOTICE_CLIENT, notice.client);
    format_numbers::write_u32(out, constants::NOTICE_TIME, notice.time);
}

fn write_grant(out: &mut [u8], grant: Grant)
    requires { grant_size ≤ length out.old }
    ensures { out.new ≡ written out.old 0 (grant_bytes grant) }
{
    format_numbers::write_4(out, 0, constants::GRANT_KIND, 0, 0, 0);
    format_numbers::write_u32(out, constants::GRANT_CLIENT, grant.client);
    format_numbers::write_u32(out, constants::GRANT_LEASE, grant.lease);
}

// ---- by value, for the client and the lease manager. One function over a closure would be no plainer

pub fn request_packet(q: Request) -> [u8; constants::REQUEST_SIZE]
    ensures { result ≡ request_bytes q }
{
    let mut packet = [0u8; constants::REQUEST_SIZE];
    write_request(&mut packet, q);
    packet
}

pub fn notice_packet(notice: Notice) -> [u8; constants::NOTICE_SIZE]
    ensures { result ≡ notice_bytes notice_kind notice }
{
    let mut packet = [0u8; constants::NOTICE_SIZE];
    write_notice(&mut packet, constants::NOTICE_KIND, notice);
    packet
}

pub fn grant_packet(grant: Grant) -> [u8; constants::GRANT_SIZE]
    ensures { result ≡ grant_bytes grant }
{
    let mut packet = [0u8; constants::GRANT_SIZE];
    write_grant(&mut packet, grant);
    packet
}
