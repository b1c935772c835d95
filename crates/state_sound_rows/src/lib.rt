// Tests of the parts of a server's state buffer, each at its place: the head, the plan with the points, the clients.
#![tactic(auto)]

ghost use Rattle.std.specs.Prelude.{◌≡◌, suc, ◌+◌, ◌*◌, ◌≤◌, length, drop, eqb};
ghost use Rattle.model.specs.Choice.{pick};
ghost use Rattle.model.specs.Tables.{rows, every, zeros};
ghost use Rattle.model.specs.Images.{floor_of_bytes, floor_ok, clients_ascend};
ghost use Rattle.model.specs.States.{held, point_row, ends_in_order, not_given, absent_ok, point_ok, keeps_records, point_row_ok, state_framed, state_end, state_head};
ghost use Rattle.model.specs.Limits.{floor_row, plan_row, point_count, plan_size};
ghost use Rattle.state_sound_rows.specs.Parts.{head_framed, is_end, held_move, given_move, origin, status_and_ends, fields_in, held_head, still_held, held_rest, row_ok, rows_ok};

use model::constants::{CLIENT_COUNT, FLOOR_ROW, FLOORS_START, PLAN_ROW, POINT_COUNT, POINT_ROW};
use model::{PlanEntry, Point, constants};

// ---- zeros

// The words of 4 bytes, n of them from at, joined by OR: 0 where all their bytes are.
fn or_words(s: &[u8], at: usize, n: usize) -> u32
    requires { at + 4 * n ≤ length s.now }
    ensures { eqb result 0 ≡ zeros (4 * n) (drop at s.now) }
{
    let mut acc = 0;
    for i in 0..n {
        acc |= format_numbers::read_u32(s, at + 4 * i);
    }
    acc
}

// ---- the head

// The four bytes, the zero bytes and the counts of the head.
fn head_framed(s: &[u8]) -> bool
    requires { state_head ≤ length s.now }
    ensures { result ≡ head_framed s.now }
{
    let magic = format_numbers::starts_with(s, constants::STATE_MAGIC);
    let zeros = format_numbers::zeros3_at(s, constants::STATE_ZEROS);
    let word = format_numbers::read_u32(s, constants::STATE_FILL);
    let clients = state_rows::clients_in(s);
    let records = state_rows::records_in(s);
    magic
        & (zeros
            & ((word == 0)
                & ((clients <= constants::CLIENT_COUNT_U32)
                    & (records <= constants::RECORD_COUNT_U32))))
}

// The head, and the clients' rows past their count.
pub fn framed(s: &[u8]) -> bool
    requires { state_end ≤ length s.now }
    ensures { result ≡ state_framed s.now }
{
    if !head_framed(s) {
        return false;
    }
    let n = state_rows::clients_in(s) as usize;
    or_words(
        s,
        FLOORS_START + FLOOR_ROW * n,
        FLOOR_ROW / 4 * (CLIENT_COUNT - n),
    ) == 0
}

// ---- the plan and the points

// An end of a log record in a log of size bytes, or 8, a place before it.
pub fn is_end(size: u64, end: u64) -> bool
    ensures { result ≡ is_end size end }
{
    (constants::HEAD_SIZE_U64 <= end) & (end <= size)
}

// Neither destination nor give.
fn not_given(x: Point) -> bool
    ensures { result ≡ not_given x }
{
    (x.destination == 0) & (x.give_end == 0)
}

// Absent: as founding left it.
fn absent_ok(server: u8, e: PlanEntry, x: Point) -> bool
    ensures { result ≡ absent_ok server e x }
{
    let none = not_given(x);
    (e.home != server)
        & ((x.value == e.fallback)
            & ((x.quality == constants::INVALID)
                & ((x.move_number == 0) & ((x.taken_move == 0) & ((x.take_end == 0) & none)))))
}

// Held: since founding, or taken with just this move.
fn held_ok(x: Point) -> bool
    ensures { result ≡ held_move x }
{
    let none = not_given(x);
    (x.move_number == x.taken_move) & none
}

// Number is the one after the last.
fn is_next(number: u32, last: u32) -> bool
    ensures { result ≡ eqb number (suc last) }
{
    number as u64 == last as u64 + 1
}

// The record that ends at end before the one that ends at next, or both before this log.
fn in_order(end: u64, next: u64) -> bool
    ensures { result ≡ ends_in_order end next }
{
    (end < next) | ((end == constants::HEAD_SIZE_U64) & (next == constants::HEAD_SIZE_U64))
}

// Given or released: to another server, by the move and the log record after those of being held.
fn given_ok(server: u8, size: u64, x: Point) -> bool
    ensures { result ≡ given_move server size x }
{
    let next = is_next(x.move_number, x.taken_move);
    let end = is_end(size, x.give_end);
    let order = in_order(x.take_end, x.give_end);
    next & ((x.destination != server) & (order & end))
}

// The latest move of a point that is not absent.
fn move_ok(server: u8, size: u64, x: Point) -> bool
    ensures { result ≡ pick (eqb x.status held) (held_move x) (given_move server size x) }
{
    if x.status == constants::HELD {
        return held_ok(x);
    }
    given_ok(server, size, x)
}

// Never taken: founded here; else the take has an end.
fn origin_ok(server: u8, size: u64, e: PlanEntry, x: Point) -> bool
    ensures { result ≡ origin server size e x }
{
    if x.taken_move == 0 {
        (x.take_end == 0) & (e.home == server)
    } else {
        is_end(size, x.take_end)
    }
}

// What a point's status says of its other fields.
fn status_ok(server: u8, size: u64, e: PlanEntry, x: Point) -> bool
    ensures { result ≡ status_and_ends server size e x }
{
    if x.status == constants::ABSENT {
        return absent_ok(server, e, x);
    }
    if !move_ok(server, size, x) {
        return false;
    }
    origin_ok(server, size, e, x)
}

// Fields in their ranges.
fn fields_ok(e: PlanEntry, x: Point) -> bool
    ensures { result ≡ fields_in e x }
{
    let value = format_numbers::in_range(e, x.value);
    (x.status <= constants::LAST_STATUS)
        & ((x.quality <= constants::LAST_QUALITY)
            & ((x.destination <= constants::LAST_SERVER) & value))
}

// A point against its entry of the plan.
fn point_ok(server: u8, size: u64, e: PlanEntry, x: Point) -> bool
    ensures { result ≡ point_ok server size e x }
{
    if !fields_ok(e, x) {
        return false;
    }
    status_ok(server, size, e, x)
}

// The zero byte of the point from k.
fn point_row_ok(s: &[u8], k: usize) -> bool
    requires { k + point_row ≤ length s.now }
    ensures { result ≡ point_row_ok (drop k s.now) }
{
    format_numbers::zero_at(s, k + constants::POINT_ZERO)
}

// The first four bytes of a held point are a number below this: behind the status comes a quality, destination and
// zero byte are 0.
const HELD_HEADS: u32 = 256 * (constants::LAST_QUALITY as u32 + 1);

// The point from k begins as a held one: quality, destination and zero byte are told by one word.
fn held_head(s: &[u8], k: usize) -> bool
    requires { k + point_row ≤ length s.now }
    ensures { result ≡ held_head (drop k s.now) }
{
    let head = format_numbers::read_u32(s, k);
    let status = s[k];
    (head < HELD_HEADS) & (status == constants::HELD)
}

// Held: neither moved since its take, nor given.
fn still_held(x: Point) -> bool
    ensures { result ≡ still_held x }
{
    (x.move_number == x.taken_move) & (x.give_end == 0)
}

// What is left to test of a point that begins so.
fn held_rest(server: u8, size: u64, e: PlanEntry, x: Point) -> bool
    ensures { result ≡ held_rest server size e x }
{
    let value = format_numbers::in_range(e, x.value);
    let held = still_held(x);
    if !(value & held) {
        return false;
    }
    origin_ok(server, size, e, x)
}

// The plan's entry from j, and the point from k against it. Most points are held, and these need fewer tests.
fn row_ok(s: &[u8], j: usize, k: usize, server: u8, size: u64) -> bool
    requires { (j + plan_row ≤ length s.now) × (k + point_row ≤ length s.now) }
    ensures { result ≡ row_ok server size (drop j s.now) (drop k s.now) }
{
    if !format_commands::plan_row_ok(s, j) {
        return false;
    }
    let e = format_commands::plan_entry(s, j);
    let x = state_rows::point_from(s, k);
    if held_head(s, k) {
        return held_rest(server, size, e, x);
    }
    if !point_row_ok(s, k) {
        return false;
    }
    point_ok(server, size, e, x)
}

// The 64 entries of the plan from plan, and the 64 points from at against them: one pass over both tables. A row's
// tests leave at the first group that fails; all joined without an exit they take longer.
pub fn points_ok(s: &[u8], plan: usize, at: usize, server: u8, size: u64) -> bool
    requires { (plan + plan_size ≤ length s.now) × (at + point_row * point_count ≤ length s.now) }
    ensures { result ≡ rows_ok server size (drop plan s.now) (drop at s.now) }
{
    for i in 0..POINT_COUNT {
        if !row_ok(s, plan + PLAN_ROW * i, at + POINT_ROW * i, server, size) {
            return false;
        }
    }
    true
}

// Held, or given and not released: its completion records stay.
pub fn keeps_records(x: Point) -> bool
    ensures { result ≡ keeps_records x }
{
    (x.status == constants::HELD) | (x.status == constants::GIVEN)
}

// ---- the clients

// Each of n clients from at.
pub fn floors_ok(s: &[u8], at: usize, n: usize) -> bool
    requires { at + floor_row * n ≤ length s.now }
    ensures { result ≡ every floor_ok (rows floor_of_bytes floor_row n (drop at s.now)) }
{
    for i in 0..n {
        if !format_floors::floor_ok(s, at + FLOOR_ROW * i) {
            return false;
        }
    }
    true
}

// n clients from at, strictly ascending.
pub fn clients_ascend(s: &[u8], at: usize, n: usize) -> bool
    requires { at + floor_row * n ≤ length s.now }
    ensures { result ≡ clients_ascend (rows floor_of_bytes floor_row n (drop at s.now)) }
{
    for i in 0..n.saturating_sub(1) {
        if !format_floors::client_before(s, at + FLOOR_ROW * i) {
            return false;
        }
    }
    true
}
