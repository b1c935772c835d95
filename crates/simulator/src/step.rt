// One step of the simulator (paper: the yard): a line as a value and the memory in, the line's answer and the memory
// out. Its slices are lent, so that a caller chooses how many packets there is room for.
ghost use Rattle.std.specs.Prelude.{◌≡◌, List, ℕ};
ghost use Rattle.model.specs.Refusals.{malformed};
ghost use Rattle.model.specs.Simulator.{ran, plain};
ghost use Rattle.simulator_text.specs.Values.{line_is, server_line, client_line, reply_is};
ghost use Rattle.simulator_memory.specs.Store.{Room, Next};
ghost use Rattle.simulator.specs.Whole.{simulator_in, step_is};
ghost use Rattle.simulator.specs.Lending.{SameSlices, LentRan, LentReady};

use crate::Lent;
use model::constants;
use simulator_memory::{Memory, Stepped, outcome};
use simulator_text::{ClientLine, Line, ServerLine};

// 1: no line, or no such party.
fn malformed(memory: Memory) -> Stepped
    ensures { (result.memory ≡ memory) × (reply_is result.reply ≡ plain malformed) }
{
    let made = outcome::told(memory.count, constants::MALFORMED);
    simulator_memory::after_server(memory, made)
}

// At client 0 or 1; 1 no such client.
fn client_line(store: &mut [u8], memory: Memory, number: u32, line: ClientLine) -> Stepped
    requires { Room store.old memory.count }
    ensures { ((s0 l0 s1 l1 : List ℕ) → step_is result s0 l0 s1 l1 store.new
        ≡ ran (simulator_in s0 l0 s1 l1 store.old memory) (client_line number line))
        × Next memory.count result.memory.count }
{
    let Some(d) = simulator_memory::client_of(memory, number) else {
        return malformed(memory);
    };
    let made = crate::at_client::client_step(store, d, memory.count, line);
    simulator_memory::after_client(memory, number, made)
}

// At server 0 or 1; 1 no such server.
fn server_line(lent: &mut Lent, memory: Memory, number: u32, line: ServerLine) -> Stepped
    requires { LentReady lent.old memory.count }
    ensures kept { SameSlices lent.old lent.new }
    ensures ran { LentRan lent.old memory (server_line number line) result lent.new }
{
    let made = match number {
        0 => crate::at_server::server_step(lent.s0, lent.log0, lent.store, memory.count, line),
        1 => crate::at_server::server_step(lent.s1, lent.log1, lent.store, memory.count, line),
        _ => outcome::told(memory.count, constants::MALFORMED),
    };
    simulator_memory::after_server(memory, made)
}

// One line, where there is one: its answer, and the memory after it.
pub fn step(lent: &mut Lent, memory: Memory, line: Option<Line>) -> Stepped
    requires { LentReady lent.old memory.count }
    ensures kept { SameSlices lent.old lent.new }
    ensures ran { LentRan lent.old memory (line_is line) result lent.new }
{
    let Some(line) = line else {
        return malformed(memory);
    };
    match line {
        Line::AtServer(number, order) => server_line(lent, memory, number, order),
        Line::AtClient(number, order) => client_line(lent.store, memory, number, order),
    }
}
