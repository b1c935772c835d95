// Found: a server's first state, and the head of its log.
#![tactic(auto)]

ghost use Rattle.std.specs.Prelude.{◌≡◌, true, [], map, ◌+◌, ◌*◌, ◌≤◌, ◌<◌, eqb, length, drop};
ghost use Rattle.model.specs.Choice.{pick};
ghost use Rattle.model.specs.Limits.{point_count, plan_size, plan_row};
ghost use Rattle.model.specs.Tables.{written, bytes_of};
ghost use Rattle.model.specs.Plan.{plan_ok, plan_of, plan_entry_of};
ghost use Rattle.model.specs.States.{held, absent, state_end, points_start, point_row, point_bytes, state_head_bytes, state_head};
ghost use Rattle.model.specs.Apply.{founded, founded_point};
ghost use Rattle.model.specs.Operations.{after, stored, found_of};
ghost use Rattle.refusals.specs.Numbers.{answered};

use model::constants::{
    FLOORS_START, PLAN_START, POINT_COUNT, POINT_ROW, POINTS_START, RECORDS_START,
};
use model::{PlanEntry, Point, constants};
use refusals::Refusal;

// ---- the parts of a founded state

// The head: no client, no completion record, heard time 0, length and mark 8.
fn put_head(s: &mut [u8], server: u8)
    requires { state_head ≤ length s.old }
    ensures { s.new ≡ written s.old 0 (state_head_bytes (founded [] server)) }
{
    format_numbers::write_magic(s, constants::STATE_MAGIC);
    format_numbers::write_4(s, constants::STATE_SERVER, server, 0, 0, 0);
    state_rows::clear(s, constants::STATE_HEARD, constants::STATE_LENGTH);
    state_rows::put_size(s, constants::HEAD_SIZE_U64);
    state_rows::put_mark(s, constants::HEAD_SIZE_U64);
}

// A point at its home is held, elsewhere absent.
fn first_status(home: u8, server: u8) -> u8
    ensures { result ≡ pick (eqb home server) held absent }
{
    if home == server {
        constants::HELD
    } else {
        constants::ABSENT
    }
}

fn founded_point(e: PlanEntry, server: u8) -> Point
    ensures { result ≡ founded_point server e }
{
    Point {
        status: first_status(e.home, server),
        quality: constants::INVALID,
        destination: 0,
        value: e.fallback,
        move_number: 0,
        taken_move: 0,
        give_end: 0,
        take_end: 0,
    }
}

// The point of index i, by its entry of the plan.
fn put_founded(s: &mut [u8], plan: &[u8], server: u8, i: usize)
    requires { (state_end ≤ length s.old) × (plan_size ≤ length plan.now) × (i < point_count) }
    ensures { s.new
        ≡ written s.old (points_start + point_row * i)
        (point_bytes (founded_point server (plan_entry_of (drop (plan_row * i) plan.now)))) }
{
    let e = format_commands::plan_entry(plan, constants::PLAN_ROW * i);
    state_rows::put_point(s, POINTS_START + POINT_ROW * i, founded_point(e, server));
}

fn put_points(s: &mut [u8], plan: &[u8], server: u8)
    requires { (state_end ≤ length s.old) × (plan_size ≤ length plan.now) }
    ensures { s.new
        ≡ written s.old points_start
        (bytes_of point_bytes (map (founded_point server) (plan_of plan.now))) }
{
    for i in 0..POINT_COUNT {
        put_founded(s, plan, server, i);
    }
}

// ---- the state

// The plan's bytes as they are given.
fn put_plan(s: &mut [u8], plan: &[u8])
    requires { state_head + length plan.now ≤ length s.old }
    ensures { s.new ≡ written s.old state_head plan.now }
{
    format_numbers::copy_bytes(&mut s[PLAN_START..], plan);
}

// The state that founding leaves. Not inlined: found and recover would have it twice.
#[inline(never)]
pub fn found_state(s: &mut [u8], plan: &[u8], server: u8)
    requires { (state_end ≤ length s.old) × (plan_ok plan.now ≡ true) }
    ensures { s.new ≡ stored s.old (founded (plan_of plan.now) server) }
{
    put_head(s, server);
    put_plan(s, plan);
    put_points(s, plan, server);
    state_rows::clear(s, FLOORS_START, RECORDS_START);
}

// ---- the operation

// 2 state or log too short; 1 bad plan or server number; else the state and the log's head.
pub fn found(state: &mut [u8], log: &mut [u8], plan: &[u8], server: u32) -> Result<u32, Refusal>
    ensures { after (answered result) state.new log.new []
        ≡ found_of state.old log.old plan.now server }
{
    let good = format_commands::plan_ok(plan);
    server_decide::found_refusal(state.len(), log.len(), good, server)?;
    let number = server as u8;
    found_state(state, plan, number);
    format_log_writer::write_head(log, number);
    Ok(0)
}
