// The image of a point, written from a server's tables.
// Each completion record on the point has its own slot (see `floors`), and the order of slots is that of the image: so
// the records are put at their slots and then written slot by slot.
#![tactic(auto)]

ghost use Rattle.std.specs.Prelude.{◌≡◌, ◌+◌, ◌*◌, ◌≤◌, length, drop};
ghost use Rattle.model.specs.Limits.{last_point, greatest_image, record_count, entry_row};
ghost use Rattle.model.specs.Tables.{written};
ghost use Rattle.model.specs.Images.{image_bytes, image_length, image_head};
ghost use Rattle.model.specs.States.{load, completion_of, records_start, record_row};
ghost use Rattle.model.specs.Versions.{today};
ghost use Rattle.model.specs.Decisions.{entry_of_record, image_for};
ghost use Rattle.model_laws.specs.Fits.{Sound};
ghost use Rattle.state_image.specs.Slots.{point_slots, EntriesPut};

use model::constants::{CALL_WINDOW, ENTRY_ROW, FLOORS_START, RECORD_ROW, RECORDS_START};
use model::{ImageEntry, ImageHead, constants};
use state_clients::floors;
use state_rows::state;

// ---- the records of a point, by slot

// At the slot of each record on the point its index and 1, at all others 0.
fn point_slots(s: &[u8], point: u8) -> [u16; constants::RECORD_COUNT]
    requires { Sound s.now }
    ensures { result ≡ point_slots (load s.now) point }
{
    let n = state_rows::clients_in(s) as usize;
    let mut slots = [0; constants::RECORD_COUNT];
    for i in (0..state_rows::records_in(s) as usize).rev() {
        let r = state_rows::completion_from(s, RECORDS_START + RECORD_ROW * i);
        if r.command.point == point {
            let k = floors::slot_of(s, FLOORS_START, n, r.command.client, r.command.call);
            slots[k] = (i + 1) as u16;
        }
    }
    slots
}

// The entry of the completion record of index i.
fn entry_of(s: &[u8], i: usize) -> ImageEntry
    requires { records_start + record_row * (i + 1) ≤ length s.now }
    ensures { result ≡ entry_of_record (completion_of (drop (records_start + record_row * i) s.now)) }
{
    let r = state_rows::completion_from(s, RECORDS_START + RECORD_ROW * i);
    let result = r.result;
    ImageEntry {
        client: r.command.client,
        call: r.command.call,
        op: r.command.op,
        argument: r.command.argument,
        result,
    }
}

// Stores the point's entries from at on, slot by slot, and answers their number.
fn write_entries(out: &mut [u8], at: usize, s: &[u8], point: u8) -> usize
    requires { (Sound s.now) × (at + entry_row * record_count ≤ length out.old) }
    ensures { EntriesPut point s.now at out.old out.new result }
{
    let n = state_rows::clients_in(s) as usize;
    let slots = point_slots(s, point);
    let held = &slots[..CALL_WINDOW * n];
    let mut j = 0;
    for slot in held {
        let slot = *slot as usize;
        if slot != 0 {
            let entry = entry_of(s, slot - 1);
            format_image_writer::put_entry(out, at + ENTRY_ROW * j, entry);
            j += 1;
        }
    }
    j
}

// ---- the whole

// The head of the point's image, which has that many entries.
fn head_for(s: &[u8], point: u8, entries: u32) -> ImageHead
    requires { (Sound s.now) × (point ≤ last_point)
        × (entries ≡ length (image_for today (load s.now) point).entries) }
    ensures { result ≡ image_head (image_for today (load s.now) point) }
{
    let x = state::point_at(s, point);
    ImageHead {
        point,
        destination: x.destination,
        source: state::server_of(s),
        move_number: x.move_number,
        heard: state::heard_of(s),
        value: x.value,
        quality: x.quality,
        floors: state_rows::clients_in(s),
        entries,
        timed: true,
    }
}

// Stores the image of the point at the front of out, and answers its length.
pub fn write_image(out: &mut [u8], s: &[u8], point: u8) -> usize
    requires { (Sound s.now) × (point ≤ last_point) × (greatest_image ≤ length out.old) }
    ensures { (out.new ≡ written out.old 0
        (image_bytes (image_for today (load s.now) point)))
        × (result ≡ image_length (image_for today (load s.now) point)) }
{
    let floors = state_rows::clients_in(s);
    format_image_writer::write_floors(out, &s[FLOORS_START..], floors as usize);
    let at = format_image_rows::entries_start(floors);
    let n = write_entries(out, at, s, point);
    let h = head_for(s, point, n as u32);
    format_image_writer::write_head(out, h);
    at + ENTRY_ROW * n
}
