// The lines of a text, one after the other, and their answers on a page. Up to 60 lines are run; later ones are not
// read.
ghost use Rattle.std.specs.Prelude.{◌≡◌, ◌+◌, ◌≤◌, ◌<◌, length};
ghost use Rattle.model.specs.Simulator.{new_simulator};
ghost use Rattle.model.specs.Letters.{reply_room};
ghost use Rattle.simulator.specs.Run.{Turned, Printed, next_place};
ghost use Rattle.simulator.specs.Lending.{lent_simulator, SameSlices, LentReady, LentSpace, LentFresh};

use crate::{Lent, Turn};
use simulator_memory::Memory;
use simulator_text::{MOST_LINES, read_line, write_reply};

// The place behind a line's end, in a text of n bytes.
fn next_place(end: usize, n: usize) -> usize
    ensures { result ≡ next_place end n }
{
    if end < n { end + 1 } else { n }
}

// The line at a place of the text is run, and its answer put behind the n bytes of the page.
fn run_line(
    text: &[u8],
    page: &mut [u8],
    lent: &mut Lent,
    memory: Memory,
    at: usize,
    n: usize,
    number: u32,
) -> Turn
    requires { LentReady lent.old memory.count × (at < length text.now)
        × (n + reply_room ≤ length page.old) }
    ensures kept { SameSlices lent.old lent.new }
    ensures turned { Turned text.now at number n
        (lent_simulator lent.old memory) page.old memory.count result
        (lent_simulator lent.new result.memory) page.new }
{
    let width = simulator_text::find(&text[at..], b'\n');
    let end = at + width;
    let line = read_line::line_of(&text[at..end]);
    let stepped = crate::step::step(lent, memory, line);
    let after = stepped.memory;
    let reply = stepped.reply;
    let i = write_reply::put_reply(page, n, number, reply);
    Turn {
        memory: after,
        reply,
        at: next_place(end, text.len()),
        n: i,
    }
}

// The lines of the text, one after the other; the bytes of the page that hold their answers.
fn run(text: &[u8], page: &mut [u8], lent: &mut Lent, memory: Memory) -> usize
    requires { LentSpace page.old lent.old memory.count }
    ensures kept { SameSlices lent.old lent.new }
    ensures printed { Printed text.now (lent_simulator lent.old memory) page.new result }
{
    let mut after = memory;
    let mut at = 0;
    let mut n = 0;
    let mut number: u32 = 1;
    // No plainer with for: the lines end at the 60th or with the text.
    while (number <= MOST_LINES) & (at < text.len()) {
        let turn = run_line(text, page, lent, after, at, n, number);
        after = turn.memory;
        at = turn.at;
        n = turn.n;
        number += 1;
    }
    n
}

// A new simulator in the lent slices, and its run.
pub fn run_new(text: &[u8], page: &mut [u8], lent: &mut Lent) -> usize
    requires { LentFresh page.old lent.old }
    ensures kept { SameSlices lent.old lent.new }
    ensures printed { Printed text.now new_simulator page.new result }
{
    let memory = crate::start::new_simulator(lent.s0, lent.log0, lent.s1, lent.log1);
    run(text, page, lent, memory)
}
