// A server's checkpoint, written from its state in the form with times: the head with the pairs, then the four parts.
// Plan and clients are the state's bytes; a row of a point or of a completion record is the front of the state's row.
#![tactic(auto)]

ghost use Rattle.std.specs.Prelude.{◌≡◌, true, ◌++◌, ◌+◌, ◌*◌, ◌≤◌, length, take};
ghost use Rattle.model.specs.Limits.{client_count, record_count, pair_size, checkpoint_pairs, checkpoint_head, checkpoint_record, checkpoint_size};
ghost use Rattle.model.specs.Numbers.{le32, quad};
ghost use Rattle.model.specs.Tables.{bytes_of, written};
ghost use Rattle.model.specs.Plan.{plan_bytes};
ghost use Rattle.model.specs.Images.{floor_bytes};
ghost use Rattle.model.specs.States.{load};
ghost use Rattle.model.specs.Checkpoints.{checkpoint_magic, plan_part, points_part, clients_part, records_part, pairs_bytes, point_front, record_front, checkpoint_bytes, fronts};
ghost use Rattle.model_laws.specs.Fits.{Sound};

use model::constants;
use model::constants::{
    CHECKPOINT_MAGIC, CHECKPOINT_POINT, CHECKPOINT_RECORD, CLIENTS_PART, FLOOR_ROW, PLAN_PART,
    PLAN_SIZE, POINT_COUNT, POINTS_PART,
};
use state_rows::state;

// ---- bytes of the state, as they are

// The first width bytes of each of n rows, one behind the other.
fn copy_fronts(out: &mut [u8], table: &[u8], width: usize, stride: usize, n: usize)
    requires { (width ≤ stride) × (width * n ≤ length out.old) × (stride * n ≤ length table.now) }
    ensures { out.new ≡ written out.old 0
        (bytes_of (take width) (fronts stride n table.now)) }
{
    for i in 0..n {
        format_numbers::copy_part(out, width * i, table, stride * i, width);
    }
}

// ---- the head

// Server and heard time behind the magic.
fn write_frame(checkpoint: &mut [u8], server: u8, heard: u32)
    requires { checkpoint_head ≤ length checkpoint.old }
    ensures { checkpoint.new ≡ written checkpoint.old 0
        (checkpoint_magic ++ (quad server 0 0 0 ++ le32 heard)) }
{
    format_numbers::write_magic(checkpoint, CHECKPOINT_MAGIC);
    format_numbers::write_4(checkpoint, constants::CHECKPOINT_SERVER, server, 0, 0, 0);
    format_numbers::write_u32(checkpoint, constants::CHECKPOINT_HEARD, heard);
}

// A part's offset and length.
fn write_pair(checkpoint: &mut [u8], at: usize, offset: u32, size: u32)
    requires { at + pair_size ≤ length checkpoint.old }
    ensures { checkpoint.new ≡ written checkpoint.old at (le32 offset ++ le32 size) }
{
    format_numbers::write_u32(checkpoint, at, offset);
    format_numbers::write_u32(checkpoint, at + constants::NUMBER_SIZE, size);
}

// The pairs, for n clients and k completion records.
fn write_pairs(checkpoint: &mut [u8], n: usize, k: usize)
    requires { (checkpoint_head ≤ length checkpoint.old) × (n ≤ client_count) × (k ≤ record_count) }
    ensures { checkpoint.new ≡ written checkpoint.old checkpoint_pairs
        (pairs_bytes checkpoint_record n k) }
{
    write_pair(
        checkpoint,
        constants::CHECKPOINT_PLAN_PAIR,
        PLAN_PART as u32,
        PLAN_SIZE as u32,
    );
    write_pair(
        checkpoint,
        constants::CHECKPOINT_POINTS_PAIR,
        POINTS_PART as u32,
        (CHECKPOINT_POINT * POINT_COUNT) as u32,
    );
    write_pair(
        checkpoint,
        constants::CHECKPOINT_CLIENTS_PAIR,
        CLIENTS_PART as u32,
        (FLOOR_ROW * n) as u32,
    );
    write_pair(
        checkpoint,
        constants::CHECKPOINT_RECORDS_PAIR,
        (CLIENTS_PART + FLOOR_ROW * n) as u32,
        (CHECKPOINT_RECORD * k) as u32,
    );
}

// ---- the parts

fn write_plan(checkpoint: &mut [u8], s: &[u8])
    requires { (Sound s.now) × (checkpoint_size ≤ length checkpoint.old) }
    ensures { checkpoint.new ≡ written checkpoint.old plan_part
        (plan_bytes (load s.now).plan) }
{
    format_numbers::copy_part(checkpoint, PLAN_PART, s, constants::PLAN_START, PLAN_SIZE);
}

fn write_points(checkpoint: &mut [u8], s: &[u8])
    requires { (Sound s.now) × (checkpoint_size ≤ length checkpoint.old) }
    ensures { checkpoint.new ≡ written checkpoint.old points_part
        (bytes_of point_front (load s.now).points) }
{
    copy_fronts(
        &mut checkpoint[POINTS_PART..],
        &s[constants::POINTS_START..],
        CHECKPOINT_POINT,
        constants::POINT_ROW,
        POINT_COUNT,
    );
}

fn write_clients(checkpoint: &mut [u8], s: &[u8])
    requires { (Sound s.now) × (checkpoint_size ≤ length checkpoint.old) }
    ensures { checkpoint.new ≡ written checkpoint.old clients_part
        (bytes_of floor_bytes (load s.now).floors) }
{
    let n = state_rows::clients_in(s) as usize;
    format_numbers::copy_part(
        checkpoint,
        CLIENTS_PART,
        s,
        constants::FLOORS_START,
        FLOOR_ROW * n,
    );
}

// The completion records, behind the clients.
fn write_records(checkpoint: &mut [u8], s: &[u8], from: usize)
    requires { (Sound s.now) × (from ≤ records_part client_count) × (checkpoint_size ≤ length checkpoint.old) }
    ensures { checkpoint.new ≡ written checkpoint.old from
        (bytes_of (record_front checkpoint_record) (load s.now).records) }
{
    let k = state_rows::records_in(s) as usize;
    copy_fronts(
        &mut checkpoint[from..],
        &s[constants::RECORDS_START..],
        CHECKPOINT_RECORD,
        constants::RECORD_ROW,
        k,
    );
}

// ---- the whole

// Stores the checkpoint of the state at the front of the slice, and answers its length.
pub fn write_checkpoint(checkpoint: &mut [u8], s: &[u8]) -> u32
    requires { (Sound s.now) × (checkpoint_size ≤ length checkpoint.old) }
    ensures { (checkpoint.new ≡ written checkpoint.old 0
        (checkpoint_bytes true (load s.now)))
        × (result ≡ length (checkpoint_bytes true (load s.now))) }
{
    let n = state_rows::clients_in(s) as usize;
    let k = state_rows::records_in(s) as usize;
    let from = CLIENTS_PART + FLOOR_ROW * n;
    write_frame(checkpoint, state::server_of(s), state::heard_of(s));
    write_pairs(checkpoint, n, k);
    write_plan(checkpoint, s);
    write_points(checkpoint, s);
    write_clients(checkpoint, s);
    write_records(checkpoint, s, from);
    (from + CHECKPOINT_RECORD * k) as u32
}
