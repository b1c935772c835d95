// The reader of moving images: the test of every rule but the one on values, which needs the plan; that one; rows by
// number. An image inside a take record is read from its place: the log's part from there is passed.
#![tactic(auto)]

ghost use Rattle.std.specs.Prelude.{◌≡◌, ◌+◌, ◌-◌, ◌*◌, ◌≤◌, length, drop, true};
ghost use Rattle.model.specs.Tables.{rows, every};
ghost use Rattle.model.specs.Limits.{least_image, floor_row};
ghost use Rattle.model.specs.Images.{floor_of_bytes, image_entry_of, entry_row_of, image_at, entries_start, length_by};
ghost use Rattle.model.specs.Images.{clients_ascend, image_ok, parse_image, entry_in_range, image_in_range};
ghost use Rattle.format_image_reader.specs.Answers.{body_ok, read_of};
ghost use Rattle.format_image_reader.specs.Walks.{floors_in, floor_step, floors_ok, leading, floor_first, entry_fields_ok, entry_step, entries_ok, rows_ok};

use model::constants::{FLOOR_ROW, LEAST_IMAGE};
use model::{ImageEntry, ImageHead, PlanEntry};

// ---- floors

// The floor from k, before the left floors behind it: client and floor are from 1, and the next client is greater.
fn floor_step(s: &[u8], k: usize, left: usize) -> bool
    requires { k + floor_row * (left + 1) ≤ length s.now }
    ensures { result ≡ floor_step left (drop k s.now) }
{
    let ok = format_floors::floor_ok(s, k);
    if left == 0 {
        return ok;
    }
    let next = format_floors::client_before(s, k);
    next & ok
}

// Each of n floors, strictly ascending by client.
fn floors_ok(s: &[u8], n: usize) -> bool
    requires { entries_start n ≤ length s.now }
    ensures { result ≡ floors_ok (floors_in s.now n) }
{
    (0..n).all(|i| floor_step(s, LEAST_IMAGE + FLOOR_ROW * i, n - (i + 1)))
}

// How many of n floors have a client below this one, where the first `below` have. `find` would be no plainer: what it
// answers past the last floor is n.
fn next_floor(s: &[u8], n: usize, client: u32, below: usize) -> usize
    requires { (entries_start n ≤ length s.now) × (below ≤ leading client (floors_in s.now n)) }
    ensures { result ≡ leading client (floors_in s.now n) }
{
    for j in below..n {
        let f = format_floors::floor_from(s, LEAST_IMAGE + FLOOR_ROW * j);
        if client <= f.client {
            return j;
        }
    }
    n
}

// The floor of the client, where the floor of index j is its own; else 0.
fn floor_here(s: &[u8], n: usize, client: u32, j: usize) -> u32
    requires { entries_start n ≤ length s.now }
    ensures { result ≡ floor_first client (rows floor_of_bytes floor_row (n - j)
        (drop (least_image + floor_row * j) s.now)) }
{
    if n <= j {
        return 0;
    }
    let f = format_floors::floor_from(s, LEAST_IMAGE + FLOOR_ROW * j);
    if f.client == client {
        return f.floor;
    }
    0
}

// ---- completion records

// The fields of a record of the point, whose client has this floor.
fn entry_fields_ok(point: u8, floor: u32, entry: ImageEntry) -> bool
    ensures { result ≡ entry_fields_ok point floor entry }
{
    let command = format_numbers::command_ok(entry.op, point, entry.argument);
    let outcome = format_numbers::outcome_ok(entry.result.outcome, entry.result.quality);
    let id = format_numbers::id_ok(entry.client, entry.call);
    let window = format_floors::in_window(floor, entry.call);
    command & (outcome & (id & window))
}

// The record from k, before the left records behind it: its row, and the next id is greater.
fn entry_step(
    s: &[u8],
    point: u8,
    floor: u32,
    timed: bool,
    width: usize,
    k: usize,
    left: usize,
) -> bool
    requires { (entry_row_of timed ≤ width) × (k + width * (left + 1) ≤ length s.now) }
    ensures { result ≡ entry_step timed point floor width left (drop k s.now) }
{
    let zero = format_image_rows::entry_row_ok(s, k);
    let entry = format_image_rows::entry_from(s, k, timed);
    let fields = entry_fields_ok(point, floor, entry);
    if left == 0 {
        return zero & fields;
    }
    let next = format_image_rows::id_before(s, k, width, timed);
    next & (zero & fields)
}

// Each of so many records of the point from at, strictly ascending by client, then call; n floors ascend by client, so
// that the floors are walked once beside the records. No `all`: a test that moves the cursor j is no pure one.
fn entries_ok(
    s: &[u8],
    n: usize,
    point: u8,
    timed: bool,
    width: usize,
    at: usize,
    entries: usize,
) -> bool
    requires { (entry_row_of timed ≤ width) × (entries_start n ≤ length s.now)
        × (at + width * entries ≤ length s.now)
        × (clients_ascend (floors_in s.now n) ≡ true) }
    ensures { result ≡ entries_ok timed point (floors_in s.now n) width entries
        (drop at s.now) }
{
    let mut j = 0;
    for i in 0..entries {
        let k = format_image_rows::entry_at(at, width, i);
        let entry = format_image_rows::entry_from(s, k, timed);
        j = next_floor(s, n, entry.client, j);
        let floor = floor_here(s, n, entry.client, j);
        if !entry_step(s, point, floor, timed, width, k, entries - (i + 1)) {
            return false;
        }
    }
    true
}

// ---- the whole

// Both tables, of an image whose parts end within the slice.
fn tables_ok(s: &[u8], h: ImageHead) -> bool
    requires { length_by h ≤ length s.now }
    ensures { result ≡ rows_ok h s.now }
{
    let n = h.floors as usize;
    if !floors_ok(s, n) {
        return false;
    }
    let width = format_image_rows::entry_width(h);
    let at = format_image_rows::entries_start(h.floors);
    entries_ok(s, n, h.point, h.timed, width, at, h.entries as usize)
}

// The head's fields, the parts, and the rows of both tables.
fn body_ok(s: &[u8], h: ImageHead) -> bool
    requires { least_image ≤ length s.now }
    ensures { result ≡ body_ok h s.now }
{
    if !format_image_rows::head_ok(h) {
        return false;
    }
    if !format_image_rows::parts_ok(s, h) {
        return false;
    }
    tables_ok(s, h)
}

// All rules but the one on values.
pub fn image_ok(s: &[u8]) -> bool
    ensures { result ≡ image_ok s.now }
{
    if s.len() < LEAST_IMAGE {
        return false;
    }
    let timed = format_image_rows::timed_in(s);
    if format_image_rows::greatest(timed) < s.len() {
        return false;
    }
    if !format_image_rows::framed(s) {
        return false;
    }
    let h = format_image_rows::head_from(s);
    body_ok(s, h)
}

// The head of a well-formed image; none where the bytes are no image.
pub fn image_read(s: &[u8]) -> Option<ImageHead>
    ensures { result ≡ read_of (parse_image s.now) }
{
    if !image_ok(s) {
        return None;
    }
    Some(format_image_rows::head_from(s))
}

// ---- values in the point's range

// The value of each of so many records from at.
fn entries_in_range(
    s: &[u8],
    e: PlanEntry,
    timed: bool,
    width: usize,
    at: usize,
    entries: usize,
) -> bool
    requires { (entry_row_of timed ≤ width) × (at + width * entries ≤ length s.now) }
    ensures { result ≡ every (entry_in_range e)
        (rows (image_entry_of timed) width entries (drop at s.now)) }
{
    (0..entries).all(|i| {
        let k = format_image_rows::entry_at(at, width, i);
        format_image_rows::entry_in_range(s, e, k, timed)
    })
}

// The values of an image that was read with the head h.
pub fn values_in_range(s: &[u8], h: ImageHead, e: PlanEntry) -> bool
    requires { length_by h ≤ length s.now }
    ensures { result ≡ image_in_range e (image_at h s.now) }
{
    if !format_numbers::in_range(e, h.value) {
        return false;
    }
    let width = format_image_rows::entry_width(h);
    let at = format_image_rows::entries_start(h.floors);
    entries_in_range(s, e, h.timed, width, at, h.entries as usize)
}
