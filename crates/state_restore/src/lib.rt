// A server's state from its checkpoint: the bytes of the state that the checkpoint keeps, with every place of the log
// at 8.
#![tactic(auto)]

ghost use Rattle.std.specs.Prelude.{◌≡◌, true, ◌+◌, ◌*◌, ◌/◌, ◌≤◌, ◌<◌, eqb, leb, length, take, drop};
ghost use Rattle.model.specs.Choice.{pick};
ghost use Rattle.model.specs.Limits.{head_size, point_count, client_count, record_count, floor_row, checkpoint_head, checkpoint_point, checkpoint_record};
ghost use Rattle.model.specs.Tables.{bytes_of, written};
ghost use Rattle.model.specs.States.{given, state_end, state_head, points_start, point_row, floors_start, records_start, record_row, padded};
ghost use Rattle.model.specs.Checkpoints.{points_part, clients_part, records_part, clients_of, record_width, records_size_in, point_whole, record_whole, fronts};
ghost use Rattle.model.specs.Checkpoints.{restored_bytes, checkpoint_framed};
ghost use Rattle.state_restore.specs.Parts.{fixed_pairs, table_pairs, head_restored};
ghost use Rattle.state_restore.specs.Restored.{RestoredBy};

use model::constants;
use model::constants::{
    CHECKPOINT_POINT, CLIENTS_PART, FLOOR_ROW, FLOORS_START, HEAD_SIZE_U64, PLAN_SIZE, POINT_COUNT,
    POINT_ROW, POINTS_PART, RECORD_ROW, RECORDS_START,
};

// ---- the layout

// The number of clients, by the length of their part.
pub fn clients_of(s: &[u8]) -> usize
    requires { checkpoint_head ≤ length s.now }
    ensures { result ≡ clients_of s.now }
{
    format_numbers::read_u32(s, constants::CHECKPOINT_CLIENTS_LENGTH) as usize / FLOOR_ROW
}

// The bytes of a completion record, by the checkpoint's form: the one place that knows them.
pub fn record_width(s: &[u8]) -> usize
    requires { checkpoint_head ≤ length s.now }
    ensures { result ≡ record_width s.now }
{
    if format_numbers::starts_with(s, constants::CHECKPOINT_MAGIC) {
        constants::CHECKPOINT_RECORD
    } else {
        constants::FIRST_CHECKPOINT_RECORD
    }
}

// The number of completion records of width bytes, by the length of their part.
pub fn records_of(s: &[u8], width: usize) -> usize
    requires { (checkpoint_head ≤ length s.now) × (1 ≤ width) }
    ensures { result ≡ records_size_in s.now / width }
{
    format_numbers::read_u32(s, constants::CHECKPOINT_RECORDS_LENGTH) as usize / width
}

// The pairs of the two tables: whole rows, few enough, and within the slice. A completion record has width bytes.
fn table_pairs(s: &[u8], width: usize) -> bool
    requires { (checkpoint_head ≤ length s.now) × (1 ≤ width) }
    ensures { result ≡ table_pairs width s.now }
{
    let clients = format_numbers::read_u32(s, constants::CHECKPOINT_CLIENTS_LENGTH) as usize;
    let third = format_numbers::read_u32(s, constants::CHECKPOINT_RECORDS_PAIR) as usize;
    let records = format_numbers::read_u32(s, constants::CHECKPOINT_RECORDS_LENGTH) as usize;
    let n = clients / FLOOR_ROW;
    let count = records / width;
    let start = CLIENTS_PART + FLOOR_ROW * n;
    (clients == FLOOR_ROW * n)
        & ((third == start)
            & ((records == width * count)
                & ((n <= constants::CLIENT_COUNT)
                    & ((count <= constants::RECORD_COUNT) & (start + width * count <= s.len())))))
}

// The pairs: first those with one value for all checkpoints.
fn pairs_ok(s: &[u8], width: usize) -> bool
    requires { (checkpoint_head ≤ length s.now) × (1 ≤ width) }
    ensures { result ≡ fixed_pairs width s.now }
{
    let tables = table_pairs(s, width);
    let plan = format_numbers::read_u32(s, constants::CHECKPOINT_PLAN_PAIR) as usize;
    let plan_length = format_numbers::read_u32(s, constants::CHECKPOINT_PLAN_LENGTH) as usize;
    let points = format_numbers::read_u32(s, constants::CHECKPOINT_POINTS_PAIR) as usize;
    let points_length = format_numbers::read_u32(s, constants::CHECKPOINT_POINTS_LENGTH) as usize;
    let clients = format_numbers::read_u32(s, constants::CHECKPOINT_CLIENTS_PAIR) as usize;
    (plan == constants::PLAN_PART)
        & ((plan_length == PLAN_SIZE)
            & ((points == POINTS_PART)
                & ((points_length == CHECKPOINT_POINT * POINT_COUNT)
                    & ((clients == CLIENTS_PART) & tables))))
}

// One of the magics, and parts without gaps from byte 44 within the slice.
pub fn framed(checkpoint: &[u8]) -> bool
    ensures { result ≡ checkpoint_framed checkpoint.now }
{
    if checkpoint.len() < constants::CHECKPOINT_HEAD {
        return false;
    }
    let timed = format_numbers::starts_with(checkpoint, constants::CHECKPOINT_MAGIC);
    let untimed = format_numbers::starts_with(checkpoint, constants::FIRST_CHECKPOINT_MAGIC);
    let width = record_width(checkpoint);
    let pairs = pairs_ok(checkpoint, width);
    (timed | untimed) & pairs
}

// ---- rows

// A point given or released has a give before this log.
fn give_end(status: u8) -> u64
    ensures { result ≡ pick (leb given status) head_size 0 }
{
    if constants::GIVEN <= status {
        HEAD_SIZE_U64
    } else {
        0
    }
}

// One with a latest taken move has a take before this log.
fn take_end(taken: u32) -> u64
    ensures { result ≡ pick (eqb taken 0) 0 head_size }
{
    if taken == 0 { 0 } else { HEAD_SIZE_U64 }
}

// The point in the 16 bytes from one place, with its ends, in the 32 bytes from another.
fn put_point(s: &mut [u8], to: usize, checkpoint: &[u8], from: usize)
    requires { (to + point_row ≤ length s.old) × (from + checkpoint_point ≤ length checkpoint.now) }
    ensures { s.new ≡ written s.old to (point_whole (drop from checkpoint.now)) }
{
    let give = give_end(checkpoint[from]);
    let take = take_end(format_numbers::read_u32(checkpoint, from + constants::POINT_TAKEN));
    format_numbers::copy_part(s, to, checkpoint, from, CHECKPOINT_POINT);
    format_numbers::write_u64(s, to + constants::POINT_GIVE_END, give);
    format_numbers::write_u64(s, to + constants::POINT_TAKE_END, take);
}

// The completion record in the width bytes from one place, in the 32 bytes from another: zeros up to its front's end,
// and its end.
fn put_record(s: &mut [u8], to: usize, checkpoint: &[u8], from: usize, width: usize)
    requires { (to + record_row ≤ length s.old) × (from + width ≤ length checkpoint.now)
        × (width ≤ checkpoint_record) }
    ensures { s.new ≡ written s.old to
        (record_whole width (drop from checkpoint.now)) }
{
    format_numbers::copy_part(s, to, checkpoint, from, width);
    state_rows::clear(s, to + width, to + constants::RECORD_END);
    format_numbers::write_u64(s, to + constants::RECORD_END, HEAD_SIZE_U64);
}

// ---- the parts of a state

// The head: server and heard time as they are, the counts, length and mark 8.
fn put_head(s: &mut [u8], checkpoint: &[u8], n: usize, count: usize)
    requires { (state_head ≤ length s.old) × (checkpoint_head ≤ length checkpoint.now) × (n ≤ client_count)
        × (count ≤ record_count) }
    ensures { s.new ≡ written s.old 0 (head_restored n count checkpoint.now) }
{
    format_numbers::write_magic(s, constants::STATE_MAGIC);
    format_numbers::copy_part(
        s,
        constants::STATE_SERVER,
        checkpoint,
        constants::CHECKPOINT_SERVER,
        constants::CHECKPOINT_SHARED,
    );
    state_rows::put_clients(s, n as u32);
    state_rows::put_records(s, count as u32);
    format_numbers::write_4(s, constants::STATE_FILL, 0, 0, 0, 0);
    state_rows::put_size(s, HEAD_SIZE_U64);
    state_rows::put_mark(s, HEAD_SIZE_U64);
}

fn put_points(s: &mut [u8], checkpoint: &[u8])
    requires { (state_end ≤ length s.old) × (clients_part ≤ length checkpoint.now) }
    ensures { s.new ≡ written s.old points_start
        (bytes_of point_whole (fronts checkpoint_point point_count (drop points_part checkpoint.now))) }
{
    for i in 0..POINT_COUNT {
        put_point(
            s,
            constants::POINTS_START + POINT_ROW * i,
            checkpoint,
            POINTS_PART + CHECKPOINT_POINT * i,
        );
    }
}

// The clients as they are, and zeros in the rows past them.
fn put_clients(s: &mut [u8], checkpoint: &[u8], n: usize)
    requires { (state_end ≤ length s.old) × (records_part n ≤ length checkpoint.now) × (n ≤ client_count) }
    ensures { s.new ≡ written s.old floors_start
        (padded (take floor_row) floor_row client_count (fronts floor_row n
        (drop clients_part checkpoint.now))) }
{
    format_numbers::copy_part(s, FLOORS_START, checkpoint, CLIENTS_PART, FLOOR_ROW * n);
    state_rows::clear(s, FLOORS_START + FLOOR_ROW * n, RECORDS_START);
}

// count completion records of width bytes, from a place of the checkpoint. What lies behind the last of them is left as
// it is.
fn put_records(s: &mut [u8], checkpoint: &[u8], from: usize, width: usize, count: usize)
    requires { (state_end ≤ length s.old) × (from + width * count ≤ length checkpoint.now) × (count ≤ record_count)
        × (width ≤ checkpoint_record) }
    ensures { s.new
        ≡ written s.old records_start
        (bytes_of (record_whole width) (fronts width count (drop from checkpoint.now))) }
{
    for i in 0..count {
        put_record(
            s,
            RECORDS_START + RECORD_ROW * i,
            checkpoint,
            from + width * i,
            width,
        );
    }
}

// ---- the state

// The bytes of the state that a checkpoint keeps.
pub fn restore(work: &mut [u8], checkpoint: &[u8])
    requires { (checkpoint_framed checkpoint.now ≡ true) × (state_end ≤ length work.old) }
    ensures { work.new ≡ written work.old 0 (restored_bytes checkpoint.now) }
{
    let n = clients_of(checkpoint);
    let width = record_width(checkpoint);
    let count = records_of(checkpoint, width);
    put_head(work, checkpoint, n, count);
    format_numbers::copy_part(
        work,
        constants::PLAN_START,
        checkpoint,
        constants::PLAN_PART,
        PLAN_SIZE,
    );
    put_points(work, checkpoint);
    put_clients(work, checkpoint, n);
    put_records(work, checkpoint, CLIENTS_PART + FLOOR_ROW * n, width, count);
}

// The state that a checkpoint gives, if it gives one: restored, and sound by the state's own rule.
pub fn restore_sound(work: &mut [u8], checkpoint: &[u8]) -> bool
    requires { length work.old ≡ state_end }
    ensures { RestoredBy checkpoint.now work.new result }
{
    if !framed(checkpoint) {
        return false;
    }
    restore(work, checkpoint);
    state_soundness::state_ok(work)
}
