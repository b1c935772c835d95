// The parsers of the packets: one of each kind, whose caller has read the kind, and one of any.
#![tactic(auto)]

ghost use Rattle.std.specs.Prelude.{◌≡◌};
ghost use Rattle.model.specs.Packets.{packet_length, result_kind_of, parse_request, parse_result, parse_refusal, parse_receipt, parse_notice, parse_grant, parse_packet};

use model::{Packet, constants};

// A packet of one kind: of its length, with its zero bytes and fields as they should be.
fn parse_request(packet: &[u8]) -> Option<Packet>
    ensures { result ≡ parse_request packet.now }
{
    if packet.len() != constants::PACKET_LENGTHS[1] {
        return None;
    }
    let q = format_fields::request_at(packet);
    let ok = format_numbers::zero_at(packet, constants::REQUEST_ZERO)
        & format_fields::request_ok(q);
    ok.then_some(Packet::Requested(q))
}

// The length of a result by its form.
fn result_length(timed: bool) -> usize
    ensures { result ≡ packet_length (result_kind_of timed) }
{
    if timed {
        constants::PACKET_LENGTHS[7]
    } else {
        constants::PACKET_LENGTHS[2]
    }
}

// By its form: with a time, or without one.
pub fn parse_result(packet: &[u8], timed: bool) -> Option<Packet>
    ensures { result ≡ parse_result timed packet.now }
{
    if packet.len() != result_length(timed) {
        return None;
    }
    let completed = format_fields::result_at(packet, timed);
    let ok = format_fields::result_ok(completed);
    ok.then_some(Packet::Resulted(completed))
}

pub fn parse_refusal(packet: &[u8]) -> Option<Packet>
    ensures { result ≡ parse_refusal packet.now }
{
    if packet.len() != constants::PACKET_LENGTHS[3] {
        return None;
    }
    let denied = format_fields::refusal_at(packet);
    let ok = format_numbers::zero_at(packet, constants::REFUSAL_ZERO)
        & format_fields::refusal_ok(denied);
    ok.then_some(Packet::Refused(denied))
}

fn parse_receipt(packet: &[u8]) -> Option<Packet>
    ensures { result ≡ parse_receipt packet.now }
{
    if packet.len() != constants::PACKET_LENGTHS[4] {
        return None;
    }
    let receipt = format_fields::receipt_at(packet);
    let ok = format_numbers::zero_at(packet, constants::RECEIPT_ZERO)
        & format_fields::receipt_ok(receipt);
    ok.then_some(Packet::Receipted(receipt))
}

fn parse_notice(packet: &[u8]) -> Option<Packet>
    ensures { result ≡ parse_notice packet.now }
{
    if packet.len() != constants::PACKET_LENGTHS[5] {
        return None;
    }
    let notice = format_fields::notice_at(packet);
    let ok = format_numbers::zeros3_at(packet, constants::NOTICE_ZEROS)
        & format_fields::notice_ok(notice);
    ok.then_some(Packet::Noticed(notice))
}

pub fn parse_grant(packet: &[u8]) -> Option<Packet>
    ensures { result ≡ parse_grant packet.now }
{
    if packet.len() != constants::PACKET_LENGTHS[6] {
        return None;
    }
    let grant = format_fields::grant_at(packet);
    let ok = format_numbers::zeros3_at(packet, constants::GRANT_ZEROS)
        & format_fields::grant_ok(grant);
    ok.then_some(Packet::Granted(grant))
}

// The first byte is the kind.
pub fn parse_packet(packet: &[u8]) -> Option<Packet>
    ensures { result ≡ parse_packet packet.now }
{
    if packet.is_empty() {
        return None;
    }
    match packet[0] {
        constants::REQUEST_KIND => parse_request(packet),
        constants::FIRST_RESULT_KIND => parse_result(packet, false),
        constants::REFUSAL_KIND => parse_refusal(packet),
        constants::RECEIPT_KIND => parse_receipt(packet),
        constants::NOTICE_KIND => parse_notice(packet),
        constants::GRANT_KIND => parse_grant(packet),
        constants::RESULT_KIND => parse_result(packet, true),
        0 | 8..=255 => None,
    }
}
