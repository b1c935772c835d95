// The completion records' table of a server's state, in order of arrival: a record found by its id, records added, and
// those kept that a rule lets stay. What a change leaves is the bytes of the changed state.
#![tactic(auto)]

use state_clients::floors;

pub mod ids;

ghost use Rattle.std.specs.Prelude.{◌≡◌, true, not, ◌+◌, ◌*◌, ◌≤◌, ◌<◌, [], ◌∷◌, ◌++◌, length, drop};
ghost use Rattle.model.specs.Limits.{client_count, record_count};
ghost use Rattle.model.specs.Tables.{rows, every, keep};
ghost use Rattle.model.specs.Images.{length_by};
ghost use Rattle.model.specs.States.{load, state_end, clients_in, records_start, record_row, is_id, completion_of};
ghost use Rattle.model.specs.Apply.{stays_over, stays_over_floors, taken_record};
ghost use Rattle.model.specs.Decisions.{find};
ghost use Rattle.model.specs.Operations.{stored};
ghost use Rattle.model_laws.specs.Layout.{with_records};
ghost use Rattle.model_laws.specs.Sought.{Sought};
ghost use Rattle.state_rows.specs.Canonical.{Canonical};
ghost use Rattle.state_records.specs.Rules.{found_of, stays_by, front, kept_by, brought, PutKept, CompactedBy, PutEntries};

use model::constants::{FLOORS_START, RECORD_ROW, RECORDS_START, WORD};
use model::{Command, Completion, ImageEntry, ImageHead};
use state_rows::state;

// Which records stay. An enum and no closure: no plainer, since `Beside` reads the floors of the state whose rows move,
// so that a closure would be lent the state at each row, and each rule would have passes of its own.
#[derive(Clone, Copy)]
pub enum Rule {
    // of a client only calls from a floor on
    OverFloor(u32, u32),
    // those of other clients
    OfOther(u32),
    // those on other points
    OnOther(u8),
    // those on other points, and of them only calls from their client's floor on, by the clients' table of the state
    Beside(u8),
}

// ---- search

// The record from k has the id: client and call are compared as one number of 64 bits.
fn is_id(s: &[u8], k: usize, client: u32, call: u32) -> bool
    requires { k + record_row ≤ length s.now }
    ensures { result ≡ is_id client call (completion_of (drop k s.now)) }
{
    format_numbers::read_u64(s, k) == client as u64 + WORD * (call as u64)
}

// None of the four records from k has the id.
fn is_past(s: &[u8], k: usize, client: u32, call: u32) -> bool
    requires { k + 4 * record_row ≤ length s.now }
    ensures { result ≡ every (λ x. not (is_id client call x))
        (rows completion_of record_row 4 (drop k s.now)) }
{
    let first = is_id(s, k, client, call);
    let second = is_id(s, k + RECORD_ROW, client, call);
    let third = is_id(s, k + 2 * RECORD_ROW, client, call);
    let fourth = is_id(s, k + 3 * RECORD_ROW, client, call);
    !(first | (second | (third | fourth)))
}

// An index before which none of the n records has the id. Rows are tested eight at a time, so that the loop turns once
// for eight.
fn pass(s: &[u8], n: usize, client: u32, call: u32) -> usize
    requires { Canonical s.now × (n ≡ length (load s.now).records) }
    ensures { Sought (is_id client call) (rows completion_of record_row n
        (drop records_start s.now)) result }
{
    let mut i = 0;
    // no `for` over the groups: tried, and slower by a tenth
    while i + 8 <= n {
        let k = RECORDS_START + RECORD_ROW * i;
        let first = is_past(s, k, client, call);
        let second = is_past(s, k + 4 * RECORD_ROW, client, call);
        if !(first & second) {
            return i;
        }
        i += 8;
    }
    i
}

// The completion record of an id.
pub fn find(s: &[u8], client: u32, call: u32) -> Option<Completion>
    requires { Canonical s.now }
    ensures { result ≡ found_of (find client call (load s.now).records) }
{
    let n = state::records_of(s);
    let first = pass(s, n, client, call);
    for i in first..n {
        if is_id(s, RECORDS_START + RECORD_ROW * i, client, call) {
            return Some(state_rows::completion_from(s, RECORDS_START + RECORD_ROW * i));
        }
    }
    None
}

// ---- what stays

// A record's call is from its client's floor on.
fn over_floors(s: &[u8], r: Completion) -> bool
    requires { (state_end ≤ length s.now) × (clients_in s.now ≤ client_count) }
    ensures { result ≡ stays_over_floors (load s.now).floors r }
{
    let floor = floors::floor_of(s, FLOORS_START, state::clients_of(s), r.command.client);
    floor <= r.command.call
}

// A record stays by a rule.
fn stays(s: &[u8], rule: Rule, r: Completion) -> bool
    requires { (state_end ≤ length s.now) × (clients_in s.now ≤ client_count) }
    ensures { result ≡ stays_by rule (load s.now).floors r }
{
    match rule {
        Rule::OverFloor(client, floor) => (r.command.client != client) | (floor <= r.command.call),
        Rule::OfOther(client) => r.command.client != client,
        Rule::OnOther(p) => r.command.point != p,
        Rule::Beside(p) => {
            let over = over_floors(s, r);
            (r.command.point != p) & over
        }
    }
}

// Stores a record as the row of index j if it stays; the index behind it.
fn put_kept(s: &mut [u8], stay: bool, j: usize, r: Completion) -> usize
    requires { (state_end ≤ length s.old) × (stay ≡ true → j < record_count) }
    ensures { PutKept stay j r s.old s.new result }
{
    if !stay {
        return j;
    }
    state_rows::put_completion(s, RECORDS_START + RECORD_ROW * j, r);
    j + 1
}

// How many of the n records in front stay, before the first that does not.
fn front(s: &[u8], rule: Rule, n: usize) -> usize
    requires { Canonical s.now × (n ≡ length (load s.now).records) }
    ensures { result ≡ front (stays_by rule (load s.now).floors) (load s.now).records }
{
    for i in 0..n {
        let r = state_rows::completion_from(s, RECORDS_START + RECORD_ROW * i);
        if !stays(s, rule, r) {
            return i;
        }
    }
    n
}

// Moves the rows that stay to the front, in their order; their number.
fn compact(s: &mut [u8], rule: Rule, n: usize) -> usize
    requires { Canonical s.old × (n ≡ length (load s.old).records) }
    ensures { CompactedBy rule n s.old s.new result }
{
    let first = front(s, rule, n);
    let mut j = first;
    for i in first..n {
        let r = state_rows::completion_from(s, RECORDS_START + RECORD_ROW * i);
        let stay = stays(s, rule, r);
        j = put_kept(s, stay, j, r);
    }
    j
}

// The records that stay by a rule.
pub fn keep_records(s: &mut [u8], rule: Rule)
    requires { Canonical s.old }
    ensures { s.new ≡ stored s.old
        (with_records (kept_by rule (load s.old)) (load s.old)) }
{
    let n = state::records_of(s);
    let j = compact(s, rule, n);
    state_rows::put_records(s, j as u32);
}

// Of a client the records from a floor on. `old` is a floor that they are all over: where the floor is not above it,
// none goes.
pub fn keep_over(s: &mut [u8], client: u32, old: u32, floor: u32)
    requires { Canonical s.old × (every (stays_over client old) (load s.old).records ≡ true) }
    ensures { s.new ≡ stored s.old
        (with_records (keep (stays_over client floor) (load s.old).records) (load s.old)) }
{
    if floor <= old {
        return;
    }
    keep_records(s, Rule::OverFloor(client, floor));
}

// ---- records added

// A record behind the others.
pub fn append(s: &mut [u8], r: Completion)
    requires { Canonical s.old × (length (load s.old).records < record_count) }
    ensures { s.new ≡ stored s.old
        (with_records ((load s.old).records ++ (r ∷ [])) (load s.old)) }
{
    let n = state::records_of(s);
    state_rows::put_completion(s, RECORDS_START + RECORD_ROW * n, r);
    state_rows::put_records(s, n as u32 + 1);
}

// An image's completion record as one of its point, brought by a log record that ends at `end`.
fn taken_record(point: u8, end: u64, entry: ImageEntry) -> Completion
    ensures { result ≡ taken_record point end entry }
{
    let command = Command {
        client: entry.client,
        call: entry.call,
        op: entry.op,
        point: point,
        argument: entry.argument,
    };
    let result = entry.result;
    Completion {
        command,
        result,
        end: end,
    }
}

// Stores the records of an image that stay over the state's floors behind n rows; the number of rows then.
fn put_entries(s: &mut [u8], n: usize, image: &[u8], h: ImageHead, end: u64) -> usize
    requires { Canonical s.old × (length_by h ≤ length image.now)
        × (n + length (brought (load s.old) h end image.now) ≤ record_count) }
    ensures { PutEntries h end image.now n s.old s.new result }
{
    let entries = h.entries as usize;
    let width = format_image_rows::entry_width(h);
    let at = format_image_rows::entries_start(h.floors);
    let mut j = n;
    for i in 0..entries {
        let k = format_image_rows::entry_at(at, width, i);
        let entry = format_image_rows::entry_from(image, k, h.timed);
        let r = taken_record(h.point, end, entry);
        let stay = over_floors(s, r);
        j = put_kept(s, stay, j, r);
    }
    j
}

// The records of an image that stay over the state's floors, behind the others. Those under a floor are never stored:
// with them there could be more than 512 until they go.
pub fn append_image(s: &mut [u8], image: &[u8], h: ImageHead, end: u64)
    requires { Canonical s.old × (length_by h ≤ length image.now)
        × (length (load s.old).records + length (brought (load s.old) h end image.now) ≤ record_count) }
    ensures { s.new ≡ stored s.old
        (with_records ((load s.old).records ++ brought (load s.old) h end image.now)
        (load s.old)) }
{
    let n = state::records_of(s);
    let j = put_entries(s, n, image, h, end);
    state_rows::put_records(s, j as u32);
}
