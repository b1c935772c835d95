// The simulator at the start: servers 0 and 1 founded on one plan, clients 1 and 2 with their leases, no packet.
ghost use Rattle.std.specs.Prelude.{◌≡◌, List, ℕ, length};
ghost use Rattle.model.specs.Limits.{state_size};
ghost use Rattle.model.specs.Simulator.{simulator_plan, simulator_log, simulator_server, simulator_client, new_simulator};
ghost use Rattle.simulator.specs.Whole.{simulator_in};

use model::{Client, OpenCall, constants};
use simulator_memory::Memory;

// The bytes of a log.
pub const LOG_SIZE: usize = 16384;

// When the clients' leases end, and the first call of each.
const LEASE_END: u32 = 1000;

const FIRST_CALL: u32 = 1;

// The plan's row of every point: -100, 1000, 0, home 0.
const PLAN: [u8; constants::PLAN_ROW] = [156, 255, 255, 255, 232, 3, 0, 0, 0, 0, 0, 0, 0, 0, 0, 0];

pub fn plan() -> [u8; constants::PLAN_SIZE]
    ensures { result ≡ simulator_plan }
{
    let mut table = [0u8; constants::PLAN_SIZE];
    for (i, b) in table.iter_mut().enumerate() {
        *b = PLAN[i % constants::PLAN_ROW];
    }
    table
}

fn new_server(s: &mut [u8], log: &mut [u8], number: u32)
    requires { (length s.old ≡ state_size) × (length log.old ≡ simulator_log) }
    ensures { (s.new ≡ (simulator_server number).state)
        × (log.new ≡ (simulator_server number).log) }
{
    let states = s.len();
    let logs = log.len();
    state_rows::clear(s, 0, states);
    state_rows::clear(log, 0, logs);
    let table = plan();
    let _ = server_found::found(s, log, &table, number);
}

fn new_client(number: u32) -> Client
    ensures { result ≡ simulator_client number }
{
    let opened = OpenCall {
        call: 0,
        op: 0,
        point: 0,
        argument: 0,
    };
    Client {
        client: number,
        lease: LEASE_END,
        next: FIRST_CALL,
        calls: [opened; constants::CALL_WINDOW],
    }
}

// Servers 0 and 1 founded, clients 1 and 2 started, no packet.
pub fn new_simulator(s0: &mut [u8], log0: &mut [u8], s1: &mut [u8], log1: &mut [u8]) -> Memory
    requires { (length s0.old ≡ state_size) × (length log0.old ≡ simulator_log)
        × (length s1.old ≡ state_size) × (length log1.old ≡ simulator_log) }
    ensures { ((store : List ℕ)
        → simulator_in s0.new log0.new s1.new log1.new store result ≡ new_simulator)
        × (result.count ≡ 0) }
{
    new_server(s0, log0, 0);
    new_server(s1, log1, 1);
    let c0 = new_client(1);
    let c1 = new_client(2);
    Memory {
        client0: c0,
        client1: c1,
        count: 0,
    }
}
