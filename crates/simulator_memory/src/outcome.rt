// What a call leaves of the packets, and its line's answer.
ghost use Rattle.std.specs.Prelude.{◌≡◌, ◌+◌, ◌≤◌, length};
ghost use Rattle.model.specs.Numbers.{half};
ghost use Rattle.model.specs.Limits.{greatest_image, last32};
ghost use Rattle.model.specs.Clients.{receive_number, brought};
ghost use Rattle.model.specs.Simulator.{plain, answered};
ghost use Rattle.simulator_text.specs.Values.{reply_is};
ghost use Rattle.simulator_memory.specs.Store.{outside, packets_in, outcome_by, sent_outcome, outcome_is};
ghost use Rattle.simulator_memory.specs.Store.{Room, Next};

use crate::{Made, packets};
use model::{Answer, Received, Refusal, Request, constants};
use simulator_text::Reply;

// A refusal, or 0 with nothing made.
fn plain_reply(number: u32) -> Reply
    ensures { reply_is result ≡ plain number }
{
    let value = constants::HALF;
    Reply {
        number,
        made: 0,
        value,
    }
}

pub fn told(count: u32, number: u32) -> Made
    ensures { (result.count ≡ count) × (reply_is result.reply ≡ plain number) }
{
    let reply = plain_reply(number);
    Made { count, reply }
}

// What a client received: a result's value is shown.
pub fn received_reply(answer: Result<Received, Refusal>) -> Reply
    ensures { reply_is result ≡ answered (receive_number answer) 0 (brought answer).result.value }
{
    match answer {
        Err(refusal) => plain_reply(refusal.number()),
        Ok(Received::Completed(packet)) => Reply {
            number: constants::NO_REFUSAL,
            made: 0,
            value: packet.result.value,
        },
        Ok(Received::Denied(_)) => plain_reply(constants::NO_REFUSAL),
        Ok(Received::Extended(_)) => plain_reply(constants::NO_REFUSAL),
    }
}

// Whether a log may not be cut to so many bytes: they lie outside mark to length.
pub fn is_outside(mark: u64, size: u64, bytes: u32) -> bool
    ensures { result ≡ outside mark size bytes }
{
    let place = bytes as u64;
    (place < mark) | (size < place)
}

// A packet was made.
fn made_one(count: u32, number: u32) -> Made
    requires { count + 1 ≤ last32 }
    ensures { (result.count ≡ count + 1) × (reply_is result.reply ≡ answered number (count + 1) half) }
{
    let reply = Reply {
        number,
        made: count + 1,
        value: constants::HALF,
    };
    Made {
        count: count + 1,
        reply,
    }
}

// A server's call: its number, and the packet that it wrote.
pub fn called(store: &mut [u8], count: u32, answer: Answer, out: &[u8]) -> Made
    requires { Room store.old count × (length out.now ≤ greatest_image) }
    ensures { (outcome_is result store.new
        ≡ outcome_by (packets_in store.old count) answer out.now)
        × Next count result.count }
{
    if answer.wrote == 0 {
        return told(count, answer.refusal);
    }
    let n = packets::lesser(answer.wrote as usize, out.len());
    packets::put_packet(store, count, &out[0..n]);
    made_one(count, answer.refusal)
}

// A client's issue or resend: its number, and the request that it makes.
pub fn sent(store: &mut [u8], count: u32, answer: Result<Request, Refusal>) -> Made
    requires { Room store.old count }
    ensures { (outcome_is result store.new ≡ sent_outcome (packets_in store.old count) answer)
        × Next count result.count }
{
    match answer {
        Err(refusal) => told(count, refusal.number()),
        Ok(q) => {
            let packet = format_packet_writer::request_packet(q);
            packets::put_packet(store, count, &packet);
            made_one(count, constants::NO_REFUSAL)
        }
    }
}
