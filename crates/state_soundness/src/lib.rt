// The soundness test of a server's state buffer: a call on a buffer that fails it answers 19. One pass over each table;
// that no id stands twice is tested by the slots of the completion records.
#![tactic(auto)]

ghost use Rattle.std.specs.Prelude.{◌≡◌, true, ◌+◌, ◌*◌, ◌≤◌, length, drop, replicate};
ghost use Rattle.model.specs.Limits.{floor_row, client_count, record_count};
ghost use Rattle.model.specs.Tables.{rows};
ghost use Rattle.model.specs.Images.{floor_of_bytes, clients_ascend};
ghost use Rattle.model.specs.States.{clients_in, records_in, floors_start, completion_of, load, sound, record_row, state_end};
ghost use Rattle.state_clients.specs.Places.{place_of};
ghost use Rattle.state_soundness.specs.Slots.{fields_ok, at_point_ok, tested_slot, records_ok, hints_from, head_ok, tables_ok, RecordPlaced, RecordsPlaced};

use model::constants::{
    FLOOR_ROW, FLOORS_START, PLAN_START, POINTS_START, RECORD_COUNT, RECORD_ROW, RECORDS_START,
    STATE_END,
};
use model::{Completion, constants};
use state_clients::floors;
use state_rows::state;

// ---- one completion record

// The fields that are tested without plan and clients.
fn fields_ok(size: u64, r: Completion) -> bool
    ensures { result ≡ fields_ok size r }
{
    let command = format_numbers::command_ok(r.command.op, r.command.point, r.command.argument);
    let outcome = format_numbers::outcome_ok(r.result.outcome, r.result.quality);
    let id = format_numbers::id_ok(r.command.client, r.command.call);
    let end = state_sound_rows::is_end(size, r.end);
    command & (outcome & (id & end))
}

// The place of the client among n ascending clients. A hint that is right saves the search.
fn place_by(s: &[u8], n: usize, client: u32, hint: usize) -> usize
    requires { (floors_start + floor_row * n ≤ length s.now)
        × (clients_ascend (rows floor_of_bytes floor_row n (drop floors_start s.now)) ≡ true) }
    ensures { result ≡ place_of client (rows floor_of_bytes floor_row n (drop floors_start s.now)) }
{
    if hint < n {
        let f = format_floors::floor_from(s, FLOORS_START + FLOOR_ROW * hint);
        if f.client == client {
            return hint;
        }
    }
    floors::client_place(s, FLOORS_START, n, client)
}

// The fields, the value in its point's range, the point held or given.
fn at_point_ok(s: &[u8], size: u64, r: Completion) -> bool
    requires { state_end ≤ length s.now }
    ensures { result ≡ at_point_ok size (load s.now) r }
{
    if !fields_ok(size, r) {
        return false;
    }
    let e = state::entry_at(s, r.command.point);
    if !format_numbers::in_range(e, r.result.value) {
        return false;
    }
    let x = state::point_at(s, r.command.point);
    state_sound_rows::keeps_records(x)
}

// The slot of the record from k, if it passes its test.
fn record_slot(s: &[u8], n: usize, size: u64, hint: usize, k: usize) -> Option<usize>
    requires { RecordPlaced s.now n size k }
    ensures { result ≡ tested_slot (load s.now) (completion_of (drop k s.now)) }
{
    let r = state_rows::completion_from(s, k);
    if !at_point_ok(s, size, r) {
        return None;
    }
    let i = place_by(s, n, r.command.client, hint);
    let floor = floors::floor_at(s, FLOORS_START, n, i);
    if !format_floors::in_window(floor, r.command.call) {
        return None;
    }
    Some(constants::CALL_WINDOW * i + floors::call_above(r.command.call, floor))
}

// ---- all completion records

// Hints for the search of a client: its place stands at its number modulo 256, unless a later client took the entry. A
// wrong hint costs the search, and changes no answer.
fn hints_of(s: &[u8], n: usize) -> [u8; 256]
    requires { (floors_start + floor_row * n ≤ length s.now) × (n ≤ client_count) }
    ensures { result ≡ hints_from 0 (replicate 256 0) (rows floor_of_bytes floor_row n
        (drop floors_start s.now)) }
{
    let mut hints = [0u8; 256];
    for i in 0..n {
        let f = format_floors::floor_from(s, FLOORS_START + FLOOR_ROW * i);
        let j = (f.client % 256) as usize;
        hints[j] = i as u8;
    }
    hints
}

// The end of the record from k.
fn end_in(s: &[u8], k: usize) -> u64
    requires { k + record_row ≤ length s.now }
    ensures { result ≡ (completion_of (drop k s.now)).end }
{
    format_numbers::read_u64(s, k + constants::RECORD_END)
}

// Each of count records passes its test, in order of arrival, and no id stands twice: each has a slot of its own.
fn records_ok(s: &[u8], n: usize, count: usize, size: u64) -> bool
    requires { RecordsPlaced s.now n count size }
    ensures { result ≡ records_ok (load s.now) }
{
    let hints = hints_of(s, n);
    let mut marks = [false; RECORD_COUNT];
    let mut last = constants::HEAD_SIZE_U64;
    for i in 0..count {
        let k = RECORDS_START + RECORD_ROW * i;
        let end = end_in(s, k);
        if end < last {
            return false;
        }
        let j = (format_numbers::read_u32(s, k) % 256) as usize;
        let Some(slot) = record_slot(s, n, size, hints[j] as usize, k) else {
            return false;
        };
        if marks[slot] {
            return false;
        }
        marks[slot] = true;
        last = end;
    }
    true
}

// ---- the whole

// The head's numbers: server, sync mark, the log's length.
fn head_ok(s: &[u8]) -> bool
    requires { state_end ≤ length s.now }
    ensures { result ≡ head_ok (load s.now) }
{
    let server = state::server_of(s);
    let mark = state::mark_of(s);
    let size = state::size_of(s);
    (server <= constants::LAST_SERVER) & ((constants::HEAD_SIZE_U64 <= mark) & (mark <= size))
}

// The tables of a state whose counts are in their limits.
fn tables_ok(s: &[u8]) -> bool
    requires { (state_end ≤ length s.now) × (clients_in s.now ≤ client_count) × (records_in s.now ≤ record_count) }
    ensures { result ≡ tables_ok s.now }
{
    let server = state::server_of(s);
    let size = state::size_of(s);
    let n = state_rows::clients_in(s) as usize;
    let count = state_rows::records_in(s) as usize;
    if !state_sound_rows::points_ok(s, PLAN_START, POINTS_START, server, size) {
        return false;
    }
    if !state_sound_rows::floors_ok(s, FLOORS_START, n) {
        return false;
    }
    if !state_sound_rows::clients_ascend(s, FLOORS_START, n) {
        return false;
    }
    records_ok(s, n, count, size)
}

// The buffer is sound.
pub fn state_ok(s: &[u8]) -> bool
    ensures { result ≡ sound s.now }
{
    if s.len() < STATE_END {
        return false;
    }
    if !state_sound_rows::framed(s) {
        return false;
    }
    if !head_ok(s) {
        return false;
    }
    tables_ok(s)
}
