// The program `inspector`: a card on standard input, its completion records on standard output. The card is a
// checkpoint and right behind it its tail, as examples/card.c has them. A line has client, call, and the bytes that
// hold the record in the checkpoint or in the tail. A card of 65,536 bytes or more is not read whole, and answered with
// a line on standard error.
#![tactic(auto)]

ghost use Rattle.std.specs.Prelude.{◌≡◌, ◌≤◌, ◌<◌, length, take};
ghost use Rattle.model.specs.Limits.{record_count, state_size};

use model::constants;
use state_rows::state;
use std::io;

// Bytes that are read at most.
const LONGEST: usize = 65536;

fn state_buffer() -> [u8; constants::STATE_SIZE]
    ensures { length result ≡ state_size }
{
    [0; constants::STATE_SIZE]
}

// Where the checkpoint ends, by its last pair: within the card.
fn checkpoint_end(card: &[u8]) -> usize
    ensures bound { result ≤ length card.now }
    ensures prefix { result ≡ length (take result card.now) }
{
    if card.len() < constants::CHECKPOINT_HEAD {
        return 0;
    }
    let start = format_numbers::read_u32(card, constants::CHECKPOINT_RECORDS_PAIR) as usize;
    let length = format_numbers::read_u32(card, constants::CHECKPOINT_RECORDS_LENGTH) as usize;
    (start + length).min(card.len())
}

fn write_byte(rt: &impl Print, b: u8) -> io::Result<()> {
    print!(rt; " {b:02x}")
}

fn write_bytes(rt: &impl Print, part: &[u8]) -> io::Result<()> {
    for b in part {
        write_byte(rt, *b)?;
    }
    Ok(())
}

// The completion record in row i of the state.
fn write_record<'a>(
    rt: &impl Print,
    s: &[u8],
    checkpoint: &'a [u8],
    tail: &'a [u8],
    i: usize,
) -> io::Result<()>
    requires { (length s.now ≡ state_size) × (i < record_count) }
{
    let k = constants::RECORDS_START + constants::RECORD_ROW * i;
    let client = format_numbers::read_u32(s, k);
    let call = format_numbers::read_u32(s, k + constants::RECORD_CALL);
    print!(rt; "{client} {call}:")?;
    let part = server_inspect::shown::shown(s, checkpoint, tail, client, call);
    write_bytes(rt, part)?;
    println!(rt)
}

fn record_count(s: &[u8]) -> usize
    requires { length s.now ≡ state_size }
    ensures { result ≤ record_count }
{
    state::records_of(s).min(constants::RECORD_COUNT)
}

fn write_records<'a>(
    rt: &impl Print,
    s: &[u8],
    checkpoint: &'a [u8],
    tail: &'a [u8],
) -> io::Result<()>
    requires { length s.now ≡ state_size }
{
    let n = record_count(s);
    for i in 0..n {
        write_record(rt, s, checkpoint, tail, i)?;
    }
    Ok(())
}

// The state is that of the last whole record, as after a power cut.
fn inspect(rt: &(impl Print + Eprint), card: &[u8]) -> io::Result<()> {
    if card.len() == LONGEST {
        return eprintln!(rt; "inspector: a card of 65536 bytes or more");
    }
    let end = checkpoint_end(card);
    let checkpoint = &card[..end];
    let tail = &card[end..];
    let mut s = state_buffer();
    let recovered = server_recover::recover_checkpoint::recover_checkpoint(
        &mut s, checkpoint, tail,
    );
    if recovered.is_err() {
        return eprintln!(rt; "inspector: no checkpoint with its tail");
    }
    write_records(rt, &s, checkpoint, tail)
}

fn card_buffer() -> [u8; LONGEST]
    ensures { length result ≡ 65536 }
{
    [0; LONGEST]
}

fn main(rt: HostRuntime) -> io::Result<()> {
    let mut card = card_buffer();
    let n = program_input::read_full(&mut rt.stdin(), &mut card)?;
    inspect(&rt, &card[..n])
}
