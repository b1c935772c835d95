// A line at a client (paper: the yard): it issues, sends again or receives, by the same functions as the C interface.
ghost use Rattle.std.specs.Prelude.{◌≡◌, ◌+◌, ◌*◌, ◌≤◌, length};
ghost use Rattle.std.proofs.Math.Option.{some};
ghost use Rattle.model.specs.Refusals.{unknown};
ghost use Rattle.model.specs.Clients.{issue_of};
ghost use Rattle.model.specs.Simulator.{plain};
ghost use Rattle.simulator_text.specs.Values.{reply_is};
ghost use Rattle.simulator_memory.specs.Store.{row_size, packet_in, packets_in, numbered, Room};
ghost use Rattle.simulator.specs.Attended.{sent_by, receiving, client_ran, Attends, Receives};

use model::{Client, Refusal, SendAnswer, constants};
use simulator_memory::{ClientMade, Made, outcome, packets};
use simulator_text::ClientLine;

// An op or a point past a byte is malformed, as any past its range.
fn issue_by(d: Client, op: u32, point: u32, argument: u32) -> SendAnswer
    ensures { result ≡ issue_of d op point argument }
{
    if (constants::LAST_8 < op) | (constants::LAST_8 < point) {
        return SendAnswer {
            client: d,
            answer: Err(Refusal::Malformed),
        };
    }
    client::issue(d, op as u8, point as u8, argument)
}

fn send_line(store: &mut [u8], count: u32, send: SendAnswer) -> ClientMade
    requires { Room store.old count }
    ensures { Attends (sent_by (packets_in store.old count) send) count result store.new }
{
    let d = send.client;
    let answer = send.answer;
    let made = outcome::sent(store, count, answer);
    ClientMade { client: d, made }
}

fn no_packet(d: Client, count: u32) -> ClientMade
    ensures { (result.client ≡ d) × (result.made.count ≡ count) × (reply_is result.made.reply ≡ plain unknown) }
{
    let made = outcome::told(count, constants::UNKNOWN);
    ClientMade { client: d, made }
}

fn receive_row(store: &[u8], d: Client, count: u32, row: u32) -> ClientMade
    requires { row_size * (row + 1) ≤ length store.now }
    ensures { Receives
        (receiving d (packets_in store.now count) (some (packet_in store.now row)))
        count result store.now }
{
    let packet = packets::packet_at(store, row);
    let received = client::receive(d, packet);
    let after = received.client;
    let answer = received.answer;
    let reply = outcome::received_reply(answer);
    let made = Made { count, reply };
    ClientMade {
        client: after,
        made,
    }
}

// 17 no such packet; else the client receives it.
fn receive_line(store: &[u8], d: Client, count: u32, number: u32) -> ClientMade
    requires { Room store.now count }
    ensures { Receives
        (receiving d (packets_in store.now count) (numbered (packets_in store.now count) number))
        count result store.now }
{
    let place = packets::place_of(count, number);
    let Some(row) = place else {
        return no_packet(d, count);
    };
    receive_row(store, d, count, row)
}

pub fn client_step(store: &mut [u8], d: Client, count: u32, line: ClientLine) -> ClientMade
    requires { Room store.old count }
    ensures { Attends (client_ran d (packets_in store.old count) line) count result store.new }
{
    match line {
        ClientLine::Issue(op, point, argument) => {
            let sent = issue_by(d, op, point, argument);
            send_line(store, count, sent)
        }
        ClientLine::Resend(c) => {
            let sent = client::resend(d, c);
            send_line(store, count, sent)
        }
        ClientLine::Receive(number) => receive_line(store, d, count, number),
    }
}
