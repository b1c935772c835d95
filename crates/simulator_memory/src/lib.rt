// The simulator's memory beside its servers: the packets made, the clients, and what a line's work leaves of both. The
// packets by number, and what a call makes of them, have a module each.
#![tactic(auto)]

pub mod outcome;
pub mod packets;

ghost use Rattle.std.specs.Prelude.{◌≡◌};
ghost use Rattle.simulator_memory.specs.Steps.{server_stepped, client_in, client_stepped};

use model::Client;
use simulator_text::Reply;

// What a call leaves: the count of packets made, and the line's answer.
#[derive(Clone, Copy)]
pub struct Made {
    pub count: u32,
    pub reply: Reply,
}

// What a line leaves of a client.
#[derive(Clone, Copy)]
pub struct ClientMade {
    pub client: Client,
    pub made: Made,
}

// The memory beside the lent slices: the clients, and the count of packets made.
#[derive(Clone, Copy)]
pub struct Memory {
    pub client0: Client,
    pub client1: Client,
    pub count: u32,
}

// What a step leaves.
#[derive(Clone, Copy)]
pub struct Stepped {
    pub memory: Memory,
    pub reply: Reply,
}

// ---- the memory after a line: at a server, at client 0 or 1

pub fn after_server(memory: Memory, made: Made) -> Stepped
    ensures { result ≡ server_stepped memory made }
{
    let count = made.count;
    Stepped {
        memory: Memory { count, ..memory },
        reply: made.reply,
    }
}

// Client 0 or 1, by its number.
pub fn client_of(memory: Memory, number: u32) -> Option<Client>
    ensures { result ≡ client_in memory number }
{
    match number {
        0 => Some(memory.client0),
        1 => Some(memory.client1),
        _ => None,
    }
}

pub fn after_client(memory: Memory, number: u32, made: ClientMade) -> Stepped
    ensures { result ≡ client_stepped memory number made }
{
    let stepped = after_server(memory, made.made);
    let mut after = stepped.memory;
    if number == 0 {
        after.client0 = made.client;
    } else {
        after.client1 = made.client;
    }
    Stepped {
        memory: after,
        reply: stepped.reply,
    }
}
