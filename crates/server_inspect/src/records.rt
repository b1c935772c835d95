// The places of an id: among rows of a table, in one record of a log, and the last of them in a whole log.
ghost use Rattle.std.specs.Prelude.{◌≡◌, true, ◌+◌, ◌*◌, ◌≤◌, ◌<◌, length, drop, ltb, MatchOption};
ghost use Rattle.model.specs.Choice.{pick};
ghost use Rattle.model.specs.Numbers.{word};
ghost use Rattle.std.proofs.Math.Option.{some};
ghost use Rattle.model.specs.Limits.{head_size};
ghost use Rattle.model.specs.Tables.{index_of};
ghost use Rattle.model.specs.Images.{image_ok};
ghost use Rattle.model.specs.Logs.{executed, executed_size_of, spans, record_at};
ghost use Rattle.model.specs.Checkpoints.{place_at, fronts, latest_of};
ghost use Rattle.format_log_reader.specs.Answers.{image_in};
ghost use Rattle.format_log_ends.specs.Answers.{extent_from};
ghost use Rattle.format_log_ends.specs.Walked.{end_at, end_from};
ghost use Rattle.server_inspect.specs.Places.{is_row_id, below, place_in_image, latest_from};

use format_log_ends::whole::whole_records;
use format_log_reader::Record;
use model::{Executed, Place, constants};

// ---- rows

// n bytes from k.
fn place_at(source: u32, k: usize, n: usize) -> Place
    requires { k + n < word * word }
    ensures { result ≡ place_at source k n }
{
    Place {
        refusal: constants::NO_REFUSAL,
        source: source,
        start: k,
        end: k + n,
    }
}

// The row from k has the id: client and call come first.
fn is_row_id(s: &[u8], k: usize, client: u32, call: u32) -> bool
    requires { k + 8 ≤ length s.now }
    ensures { result ≡ is_row_id client call (drop k s.now) }
{
    let owner = format_numbers::read_u32(s, k);
    let c = format_numbers::read_u32(s, k + constants::ENTRY_CALL);
    (owner == client) & (c == call)
}

// The index of the first of n rows of width bytes from at that has the id.
pub fn index_of(
    s: &[u8],
    at: usize,
    width: usize,
    n: usize,
    client: u32,
    call: u32,
) -> Option<usize>
    requires { (at + width * n ≤ length s.now) × (8 ≤ width) }
    ensures { result ≡ below n (index_of (is_row_id client call) (fronts width n (drop at s.now))) }
{
    (0..n).find(|i| is_row_id(s, at + width * *i, client, call))
}

// The row of an index of n rows of width bytes from at, or `found` where there is none or the index is none of theirs.
pub fn place_of(
    source: u32,
    at: usize,
    width: usize,
    n: usize,
    index: Option<usize>,
    found: Place,
) -> Place
    requires { at + width * n < word * word }
    ensures { MatchOption index (result ≡ found)
        (λ i. result ≡ pick (ltb i n) (place_at source (at + width * i) width) found) }
{
    match index {
        Some(i) => {
            if i < n {
                return place_at(source, at + width * i, width);
            }
            found
        }
        None => found,
    }
}

// ---- one record

// The bytes of an executed record, by its form.
fn executed_size(timed: bool) -> usize
    ensures { result ≡ executed_size_of timed }
{
    if timed {
        constants::EXECUTED_SIZE
    } else {
        constants::FIRST_EXECUTED_SIZE
    }
}

// An executed record from at has the id, or `found` holds it.
fn place_executed(execution: Executed, at: usize, client: u32, call: u32, found: Place) -> Place
    requires { at + executed_size_of execution.timed < word * word }
    ensures { result ≡ latest_of client call at (some (executed execution)) found }
{
    if (execution.command.client == client) & (execution.command.call == call) {
        let n = executed_size(execution.timed);
        return place_at(constants::IN_RECORD, at, n);
    }
    found
}

// An entry of the image that starts at a place of the log has the id, or `found` holds it.
fn place_in_image(image: &[u8], from: usize, client: u32, call: u32, found: Place) -> Place
    requires { (image_ok image.now ≡ true) × (from + length image.now < word * word) }
    ensures { result ≡ place_in_image client call from (image_in image.now) found }
{
    let h = format_image_rows::head_from(image);
    let n = h.entries as usize;
    let width = format_image_rows::entry_width(h);
    let at = format_image_rows::entries_start(h.floors);
    let i = index_of(image, at, width, n, client, call);
    place_of(constants::IN_IMAGE, from + at, width, n, i, found)
}

// The whole record of n bytes at a place of the log has the id, or `found` holds it.
fn latest_of(log: &[u8], at: usize, n: usize, client: u32, call: u32, found: Place) -> Place
    requires { extent_from log.now at ≡ spans n }
    ensures { result ≡ latest_of client call at (record_at (drop at log.now)) found }
{
    let Some(said) = format_log_reader::record_at(log, at, n) else {
        return found;
    };
    match said {
        Record::Executed(executed) => place_executed(executed, at, client, call, found),
        Record::Gone(notice) => found,
        Record::Gave(g) => found,
        Record::Took(span) => {
            let from = span.from;
            let to = from + span.len;
            place_in_image(&log[from..to], from, client, call, found)
        }
        Record::Released(release) => found,
    }
}

// ---- all records

// The records of the log from its head's end to the end of the last whole one: the latest that holds the id, or `first`
// does.
pub fn latest_in(log: &[u8], end: usize, client: u32, call: u32, first: Place) -> Place
    requires { end_from log.now head_size ≡ end_at end }
    ensures { result ≡ latest_from client call log.now head_size first }
{
    let mut found = first;
    for (at, n) in whole_records(log, end) {
        found = latest_of(log, at, n, client, call, found);
    }
    found
}
