// A packet arrives at a server (paper: the yard): request, release or take by its kind, by the same functions as the C
// interface.
ghost use Rattle.std.specs.Prelude.{◌≡◌, ◌+◌, ◌≤◌};
ghost use Rattle.std.proofs.Math.Option.{some};
ghost use Rattle.model.specs.Numbers.{byte_at};
ghost use Rattle.simulator_memory.specs.Store.{packet_in, packets_in, numbered, Room};
ghost use Rattle.simulator.specs.Served.{delivering, Leaves};

use model::constants;
use simulator_memory::{Made, outcome, packets};

// The first byte of an image.
const IMAGE_BYTE: u8 = constants::IMAGE_MAGIC[0];

// The first byte of a packet, 0 of an empty one.
fn first_byte(packet: &[u8]) -> u8
    ensures { result ≡ byte_at packet.now 0 }
{
    packet.first().copied().unwrap_or(0)
}

// Delivery of a packet that was made: request, release or take by kind.
fn deliver_row(s: &mut [u8], log: &mut [u8], store: &mut [u8], count: u32, row: u32) -> Made
    requires { Room store.old count × (row + 1 ≤ count) }
    ensures { Leaves
        (delivering s.old log.old (packets_in store.old count)
        (some (packet_in store.old row)))
        count result s.new log.new store.new }
{
    let packet = packets::packet_at(store, row);
    match first_byte(packet) {
        constants::REQUEST_KIND => {
            let mut out = [0u8; constants::RESULT_SIZE];
            let outcome = server_service::request::request(s, log, packet, &mut out);
            let answer = refusals::request_answer(outcome);
            outcome::called(store, count, answer, &out)
        }
        constants::RECEIPT_KIND => {
            let answer = refusals::answer(server_moves::release::release(s, log, packet));
            outcome::called(store, count, answer, &[])
        }
        IMAGE_BYTE => {
            let answer = refusals::answer(server_moves::take::take(s, log, packet));
            outcome::called(store, count, answer, &[])
        }
        _ => outcome::told(count, constants::MALFORMED),
    }
}

// 17 no such packet; else it is delivered.
pub fn deliver_line(s: &mut [u8], log: &mut [u8], store: &mut [u8], count: u32, number: u32) -> Made
    requires { Room store.old count }
    ensures { Leaves
        (delivering s.old log.old (packets_in store.old count)
        (numbered (packets_in store.old count) number))
        count result s.new log.new store.new }
{
    let place = packets::place_of(count, number);
    let Some(row) = place else {
        return outcome::told(count, constants::UNKNOWN);
    };
    deliver_row(s, log, store, count, row)
}
