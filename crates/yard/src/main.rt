// The program `yard`: a schedule on standard input, its answers on standard output. The work is `simulator::simulate`,
// which is proved; here bytes are read and written. An input of more than 65,536 bytes is answered where its first 60
// lines end within them, since later lines are not read; else it says so on standard error and answers nothing.
#![tactic(auto)]

ghost use Rattle.std.specs.Prelude.{◌≡◌, ◌+◌, ◌*◌, length};
ghost use Rattle.model.specs.Simulator.{most_lines};
ghost use Rattle.model.specs.Letters.{reply_room};
ghost use Rattle.yard.specs.Input.{longest, holds_all};

use std::io;

// Bytes of an input that is read whole.
const LONGEST: usize = 65536;

// One byte more, by which a longer input shows.
fn buffer() -> [u8; LONGEST + 1]
    ensures { length result ≡ longest + 1 }
{
    [0; LONGEST + 1]
}

fn page() -> [u8; simulator::PAGE]
    ensures { length result ≡ reply_room * most_lines }
{
    [0; simulator::PAGE]
}

// Whether what was read holds all that is answered. Of a longer input the first bytes do where they have the line feeds
// of all lines that are read: law `rest-unread` of simulator.
fn holds_all(s: &[u8]) -> bool
    ensures { result ≡ holds_all s.now }
{
    (s.len() <= LONGEST) | simulator_text::is_closed(s)
}

// Writes the answers of a text.
fn answer(rt: &(impl Print + Eprint), text: &[u8]) -> io::Result<()> {
    if !holds_all(text) {
        return eprintln!(rt; "yard: the first 60 lines have more than 65536 bytes");
    }
    let mut out = page();
    let wrote = simulator::simulate(text, &mut out).unwrap_or(0) as usize;
    let n = wrote.min(out.len());
    rt.write_all(&out[..n])
}

fn main(rt: HostRuntime) -> io::Result<()> {
    let mut text = buffer();
    let n = program_input::read_full(&mut rt.stdin(), &mut text)?;
    answer(&rt, &text[..n])
}
