// A line at a server (paper: the yard): a packet arrives, or the server syncs, gives, makes an image or a receipt, or
// loses power; by the same functions as the C interface.
ghost use Rattle.std.specs.Prelude.{◌≡◌, ◌≤◌, length};
ghost use Rattle.model.specs.Limits.{greatest_image, receipt_size};
ghost use Rattle.model.specs.States.{load, state_end};
ghost use Rattle.model.specs.Operations.{sync_of, give_of, image_of, receipt_of, recover_of};
ghost use Rattle.model.specs.Versions.{today};
ghost use Rattle.model.specs.Simulator.{room, simulator_plan};
ghost use Rattle.simulator_memory.specs.Store.{packets_in, Room};
ghost use Rattle.simulator.specs.Served.{served_by, Leaves};
ghost use Rattle.simulator.specs.Server.{cut_is, cut_by, server_ran};

use model::constants;
use simulator_memory::{Made, outcome, packets};
use simulator_text::ServerLine;
use state_rows::state;

// ---- its own calls

// The log is synced whole.
fn sync_line(s: &mut [u8], log: &[u8], store: &mut [u8], count: u32) -> Made
    requires { Room store.old count × (state_end ≤ length s.old) }
    ensures { Leaves
        (served_by (packets_in store.old count)
        (sync_of s.old log.now (load s.old).size))
        count result s.new log.now store.new }
{
    let size = state::size_of(s);
    let answer = refusals::answer(server_service::sync::sync(s, log, size));
    outcome::called(store, count, answer, &[])
}

fn give_line(
    s: &mut [u8],
    log: &mut [u8],
    store: &mut [u8],
    count: u32,
    point: u32,
    destination: u32,
) -> Made
    requires { Room store.old count }
    ensures { Leaves
        (served_by (packets_in store.old count)
        (give_of s.old log.old point destination))
        count result s.new log.new store.new }
{
    let answer = refusals::answer(server_moves::give::give(s, log, point, destination));
    outcome::called(store, count, answer, &[])
}

// An output for the longest image.
fn blank_image() -> [u8; constants::GREATEST_IMAGE]
    ensures { result ≡ room greatest_image }
{
    [0; constants::GREATEST_IMAGE]
}

fn image_to(s: &[u8], log: &[u8], store: &mut [u8], count: u32, point: u32, out: &mut [u8]) -> Made
    requires { Room store.old count × (length out.old ≤ greatest_image) }
    ensures { Leaves
        (served_by (packets_in store.old count)
        (image_of today s.now log.now point out.old))
        count result s.now log.now store.new }
{
    let answer = refusals::answer(server_moves::image::image(s, log, point, out));
    outcome::called(store, count, answer, out)
}

fn image_line(s: &[u8], log: &[u8], store: &mut [u8], count: u32, point: u32) -> Made
    requires { Room store.old count }
    ensures { Leaves
        (served_by (packets_in store.old count)
        (image_of today s.now log.now point (room greatest_image)))
        count result s.now log.now store.new }
{
    let mut out = blank_image();
    image_to(s, log, store, count, point, &mut out)
}

fn receipt_line(s: &[u8], log: &[u8], store: &mut [u8], count: u32, point: u32) -> Made
    requires { Room store.old count }
    ensures { Leaves
        (served_by (packets_in store.old count)
        (receipt_of s.now log.now point (room receipt_size)))
        count result s.now log.now store.new }
{
    let mut out = [0u8; constants::RECEIPT_SIZE];
    let answer = refusals::answer(server_moves::receipt::receipt(s, log, point, &mut out));
    outcome::called(store, count, answer, &out)
}

// ---- power cuts

// The number of a recovery from what a power cut left of the log.
fn recover_from(s: &mut [u8], log: &[u8]) -> u32
    ensures { (result ≡ (recover_of s.old log.now simulator_plan).answer.refusal)
        × (s.new ≡ (recover_of s.old log.now simulator_plan).state) }
{
    let table = crate::start::plan();
    refusals::answer(server_recover::recover::recover(s, log, &table)).refusal
}

// 10 outside mark to length; else the log is cut, and the server recovers.
fn cut_line(s: &mut [u8], log: &[u8], count: u32, bytes: u32) -> Made
    requires { state_end ≤ length s.old }
    ensures { (cut_is result s.new ≡ cut_by s.old log.now bytes)
        × (result.count ≡ count) }
{
    let mark = state::mark_of(s);
    let size = state::size_of(s);
    if outcome::is_outside(mark, size, bytes) {
        return outcome::told(count, constants::BAD_MARK);
    }
    let n = packets::lesser(bytes as usize, log.len());
    let number = recover_from(s, &log[0..n]);
    outcome::told(count, number)
}

// ---- a server's line

pub fn server_step(
    s: &mut [u8],
    log: &mut [u8],
    store: &mut [u8],
    count: u32,
    line: ServerLine,
) -> Made
    requires { Room store.old count × (state_end ≤ length s.old) }
    ensures { Leaves (server_ran s.old log.old (packets_in store.old count) line)
        count result s.new log.new store.new }
{
    match line {
        ServerLine::Deliver(number) => crate::delivery::deliver_line(s, log, store, count, number),
        ServerLine::Sync => sync_line(s, log, store, count),
        ServerLine::Cut(number) => cut_line(s, log, count, number),
        ServerLine::Give(point, destination) => give_line(s, log, store, count, point, destination),
        ServerLine::Image(point) => image_line(s, log, store, count, point),
        ServerLine::Receipt(point) => receipt_line(s, log, store, count, point),
    }
}
