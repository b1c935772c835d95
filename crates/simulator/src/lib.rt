// The simulator (paper: the yard): a schedule's text in, the answers' text out.
#![tactic(auto)]

pub mod at_client;
pub mod at_server;
pub mod delivery;
pub mod run;
pub mod start;
pub mod step;

ghost use Rattle.std.specs.Prelude.{◌≡◌, ◌*◌, ◌≤◌, length, take};
ghost use Rattle.model.specs.Limits.{state_size};
ghost use Rattle.model.specs.Simulator.{simulator_log, most_lines, new_simulator};
ghost use Rattle.model.specs.Letters.{reply_room};
ghost use Rattle.refusals.specs.Numbers.{answered};
ghost use Rattle.simulator_memory.specs.Store.{row_size};
ghost use Rattle.simulator.specs.Run.{Printed, simulated, handed, simulate_of};

use model::constants;
use refusals::Refusal;
use simulator_memory::{Memory, packets};
use simulator_text::{MOST_LINES, Reply, write_reply};

// The packets of a run: each line makes one at the most.
const STORE: usize = packets::ROW * MOST_LINES as usize;

// The answers of a run: room for each line's.
pub const PAGE: usize = write_reply::REPLY_ROOM * MOST_LINES as usize;

// The lent slices of a simulator: the states and logs of servers 0 and 1, and the packets made.
#[derive(Drop)]
pub struct Lent<'a> {
    pub s0: &'a mut [u8],
    pub log0: &'a mut [u8],
    pub s1: &'a mut [u8],
    pub log1: &'a mut [u8],
    pub store: &'a mut [u8],
}

// What one line of the text leaves.
#[derive(Clone, Copy)]
pub struct Turn {
    pub memory: Memory,
    pub reply: Reply,
    pub at: usize,
    pub n: usize,
}

// ---- the memory of a run

fn blank_state() -> [u8; constants::STATE_SIZE]
    ensures { length result ≡ state_size }
{
    [0; constants::STATE_SIZE]
}

fn blank_log() -> [u8; start::LOG_SIZE]
    ensures { length result ≡ simulator_log }
{
    [0; start::LOG_SIZE]
}

fn blank_store() -> [u8; STORE]
    ensures { length result ≡ row_size * most_lines }
{
    [0; STORE]
}

fn blank_page() -> [u8; PAGE]
    ensures { length result ≡ reply_room * most_lines }
{
    [0; PAGE]
}

// The answers of a text into a page.
fn answers(text: &[u8], page: &mut [u8]) -> usize
    requires { reply_room * most_lines ≤ length page.old }
    ensures { Printed text.now new_simulator page.new result }
{
    let mut s0 = blank_state();
    let mut log0 = blank_log();
    let mut s1 = blank_state();
    let mut log1 = blank_log();
    let mut store = blank_store();
    let mut lent = Lent {
        s0: &mut s0,
        log0: &mut log0,
        s1: &mut s1,
        log1: &mut log1,
        store: &mut store,
    };
    run::run_new(text, page, &mut lent)
}

// ---- a schedule

// Refused where the output is too short for the page's first n bytes, and it is kept; else they are copied.
fn hand_over(out: &mut [u8], page: &[u8], n: usize) -> Result<u32, Refusal>
    requires { (n ≤ reply_room * most_lines) × (n ≤ length page.now) }
    ensures { simulated (answered result) out.new ≡ handed out.old n (take n page.now) }
{
    if out.len() < n {
        return Err(Refusal::TooShort);
    }
    out[..n].copy_from_slice(&page[..n]);
    Ok(n as u32)
}

// A schedule's text in, the answers' text out, and how many bytes: refused where the output is too short for them, and
// nothing is written. PAGE bytes always suffice.
pub fn simulate(text: &[u8], out: &mut [u8]) -> Result<u32, Refusal>
    ensures { simulated (answered result) out.new ≡ simulate_of text.now out.old }
{
    let mut page = blank_page();
    let n = answers(text, &mut page);
    hand_over(out, &page, n)
}
