// A server's state in its buffer: the counts of its head, and the rows of its tables, each at its place. The plan's
// entries are read by `format_commands`, the clients' rows by `format_floors`. The module `state` reads and stores the
// parts of a state.
#![tactic(auto)]

pub mod state;

ghost use Rattle.std.specs.Prelude.{◌≡◌, ◌+◌, ◌-◌, ◌≤◌, length, drop, replicate};
ghost use Rattle.model.specs.Numbers.{le32, le64};
ghost use Rattle.model.specs.Tables.{written};
ghost use Rattle.model.specs.States.{clients_in, records_in, point_of, point_bytes, completion_of, completion_bytes, point_row, record_row, state_head, state_end};
ghost use Rattle.model.specs.States.{clients_place, records_place, length_place, mark_place};

use model::{Command, CommandResult, Completion, Point, constants};

// ---- the head

// The number of clients.
pub fn clients_in(s: &[u8]) -> u32
    requires { state_head ≤ length s.now }
    ensures { result ≡ clients_in s.now }
{
    format_numbers::read_u32(s, constants::STATE_CLIENTS)
}

// The number of completion records.
pub fn records_in(s: &[u8]) -> u32
    requires { state_head ≤ length s.now }
    ensures { result ≡ records_in s.now }
{
    format_numbers::read_u32(s, constants::STATE_RECORDS)
}

pub fn put_clients(s: &mut [u8], v: u32)
    requires { state_head ≤ length s.old }
    ensures { s.new ≡ written s.old clients_place (le32 v) }
{
    format_numbers::write_u32(s, constants::STATE_CLIENTS, v);
}

pub fn put_records(s: &mut [u8], v: u32)
    requires { state_head ≤ length s.old }
    ensures { s.new ≡ written s.old records_place (le32 v) }
{
    format_numbers::write_u32(s, constants::STATE_RECORDS, v);
}

pub fn put_size(s: &mut [u8], size: u64)
    requires { state_head ≤ length s.old }
    ensures { s.new ≡ written s.old length_place (le64 size) }
{
    format_numbers::write_u64(s, constants::STATE_LENGTH, size);
}

pub fn put_mark(s: &mut [u8], mark: u64)
    requires { state_head ≤ length s.old }
    ensures { s.new ≡ written s.old mark_place (le64 mark) }
{
    format_numbers::write_u64(s, constants::STATE_MARK, mark);
}

// ---- rows, from a place

// The point in the 32 bytes from k.
pub fn point_from(s: &[u8], k: usize) -> Point
    requires { k + point_row ≤ length s.now }
    ensures { result ≡ point_of (drop k s.now) }
{
    Point {
        status: s[k],
        quality: s[k + constants::POINT_QUALITY],
        destination: s[k + constants::POINT_DESTINATION],
        value: format_numbers::read_signed(s, k + constants::POINT_VALUE),
        move_number: format_numbers::read_u32(s, k + constants::POINT_MOVE),
        taken_move: format_numbers::read_u32(s, k + constants::POINT_TAKEN),
        give_end: format_numbers::read_u64(s, k + constants::POINT_GIVE_END),
        take_end: format_numbers::read_u64(s, k + constants::POINT_TAKE_END),
    }
}

// Stores a point in the 32 bytes from k.
pub fn put_point(s: &mut [u8], k: usize, x: Point)
    requires { k + point_row ≤ length s.old }
    ensures { s.new ≡ written s.old k (point_bytes x) }
{
    format_numbers::write_4(s, k, x.status, x.quality, x.destination, 0);
    format_numbers::write_signed(s, k + constants::POINT_VALUE, x.value);
    format_numbers::write_u32(s, k + constants::POINT_MOVE, x.move_number);
    format_numbers::write_u32(s, k + constants::POINT_TAKEN, x.taken_move);
    format_numbers::write_u64(s, k + constants::POINT_GIVE_END, x.give_end);
    format_numbers::write_u64(s, k + constants::POINT_TAKE_END, x.take_end);
}

// The completion record in the 32 bytes from k.
pub fn completion_from(s: &[u8], k: usize) -> Completion
    requires { k + record_row ≤ length s.now }
    ensures { result ≡ completion_of (drop k s.now) }
{
    let command = Command {
        client: format_numbers::read_u32(s, k),
        call: format_numbers::read_u32(s, k + constants::RECORD_CALL),
        op: s[k + constants::RECORD_OP],
        point: s[k + constants::RECORD_POINT],
        argument: format_numbers::read_signed(s, k + constants::RECORD_ARGUMENT),
    };
    let result = CommandResult {
        outcome: s[k + constants::RECORD_OUTCOME],
        value: format_numbers::read_signed(s, k + constants::RECORD_VALUE),
        quality: s[k + constants::RECORD_QUALITY],
        time: format_numbers::read_u32(s, k + constants::RECORD_TIME),
    };
    Completion {
        command,
        result,
        end: format_numbers::read_u64(s, k + constants::RECORD_END),
    }
}

// Stores a completion record in the 32 bytes from k.
pub fn put_completion(s: &mut [u8], k: usize, r: Completion)
    requires { k + record_row ≤ length s.old }
    ensures { s.new ≡ written s.old k (completion_bytes r) }
{
    format_numbers::write_u32(s, k, r.command.client);
    format_numbers::write_u32(s, k + constants::RECORD_CALL, r.command.call);
    format_numbers::write_signed(s, k + constants::RECORD_ARGUMENT, r.command.argument);
    format_numbers::write_signed(s, k + constants::RECORD_VALUE, r.result.value);
    format_numbers::write_4(
        s,
        k + constants::RECORD_OP,
        r.command.op,
        r.result.outcome,
        r.result.quality,
        r.command.point,
    );
    format_numbers::write_u32(s, k + constants::RECORD_TIME, r.result.time);
    format_numbers::write_u64(s, k + constants::RECORD_END, r.end);
}

// ---- zeros

// A buffer of the state's size.
pub fn blank() -> [u8; constants::STATE_END]
    ensures { length result ≡ state_end }
{
    [0; constants::STATE_END]
}

// Zeros from one place up to another.
pub fn clear(s: &mut [u8], from: usize, to: usize)
    requires { (from ≤ to) × (to ≤ length s.old) }
    ensures { s.new ≡ written s.old from (replicate (to - from) 0) }
{
    s[from..to].fill(0);
}
