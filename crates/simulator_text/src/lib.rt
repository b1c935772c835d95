// The simulator's text (paper: the yard): a line of a schedule read as a value, and an answer written; no line is run
// here. The values of both, and the bytes at which a text falls apart; to read a number or a line, and to write an
// answer, has a module each.
#![tactic(auto)]

pub mod read_line;
pub mod read_number;
pub mod write_reply;

ghost use Rattle.std.specs.Prelude.{◌≡◌, ◌≤◌, length};
ghost use Rattle.simulator_text.specs.Values.{first_of, line_feeds, closed};

// Lines read at the most.
pub const MOST_LINES: u32 = 60;

// ---- lines and answers

// What a line asks of a server.
#[derive(Clone, Copy)]
pub enum ServerLine {
    // d: the packet's number
    Deliver(u32),
    // y
    Sync,
    // k: bytes
    Cut(u32),
    // g: point, destination
    Give(u32, u32),
    // x: point
    Image(u32),
    // f: point
    Receipt(u32),
}

// What a line asks of a client.
#[derive(Clone, Copy)]
pub enum ClientLine {
    // i: op, point, argument (x + 2^31)
    Issue(u32, u32, u32),
    // s: call
    Resend(u32),
    // r: the packet's number
    Receive(u32),
}

// A line: the number of the server or client that it calls, and what it asks.
#[derive(Clone, Copy)]
pub enum Line {
    AtServer(u32, ServerLine),
    AtClient(u32, ClientLine),
}

// What a line answers: number or 0, packet made or 0, value received (x + 2^31).
#[derive(Clone, Copy)]
pub struct Reply {
    pub number: u32,
    pub made: u32,
    pub value: u32,
}

// ---- where a text falls apart

// The place of the first byte b, the length where there is none.
pub fn find(s: &[u8], b: u8) -> usize
    ensures { (result ≡ first_of b s.now) × (result ≤ length s.now) }
{
    s.iter().position(|x| *x == b).unwrap_or(s.len())
}

// The line feeds of a text. A loop: filter and count take more than twice its time.
pub fn line_feeds(s: &[u8]) -> usize
    ensures { result ≡ line_feeds s.now }
{
    let mut n = 0;
    for b in s {
        if *b == b'\n' {
            n += 1;
        }
    }
    n
}

// Whether a text has its 60 lines whole: what follows it changes no answer (law `rest-unread` of simulator).
pub fn is_closed(text: &[u8]) -> bool
    ensures { result ≡ closed text.now }
{
    MOST_LINES as usize <= line_feeds(text)
}
