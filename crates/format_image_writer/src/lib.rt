// The writer of moving images: head, floors and completion records, each at its place. Bytes past what is written are
// kept.
#![tactic(auto)]

ghost use Rattle.std.specs.Prelude.{◌≡◌, ◌+◌, ◌*◌, ◌≤◌, true, length};
ghost use Rattle.model.specs.Limits.{image_pairs, parts_start, least_image, floor_row, entry_row, client_count, record_count};
ghost use Rattle.model.specs.Tables.{rows, bytes_of, written};
ghost use Rattle.model.specs.Images.{floor_of_bytes, floor_bytes, image_entry_bytes, image_head_bytes, entries_start};
ghost use Rattle.format_image_writer.specs.Heads.{frame_bytes, pair_bytes, point_bytes};

use model::constants::{FLOOR_ROW, IMAGE_MAGIC, LEAST_IMAGE};
use model::{ImageEntry, ImageHead, constants};

// ---- rows, from a place

// Stores a completion record in the 24 bytes from k.
pub fn put_entry(out: &mut [u8], k: usize, entry: ImageEntry)
    requires { k + entry_row ≤ length out.old }
    ensures { out.new ≡ written out.old k (image_entry_bytes true entry) }
{
    format_numbers::write_u32(out, k, entry.client);
    format_numbers::write_u32(out, k + constants::ENTRY_CALL, entry.call);
    format_numbers::write_signed(out, k + constants::ENTRY_ARGUMENT, entry.argument);
    format_numbers::write_signed(out, k + constants::ENTRY_VALUE, entry.result.value);
    format_numbers::write_4(
        out,
        k + constants::ENTRY_OP,
        entry.op,
        entry.result.outcome,
        entry.result.quality,
        0,
    );
    format_numbers::write_u32(out, k + constants::ENTRY_TIME, entry.result.time);
}

// ---- the head

fn write_frame(out: &mut [u8], h: ImageHead)
    requires { least_image ≤ length out.old }
    ensures { out.new ≡ written out.old 0 (frame_bytes h) }
{
    format_numbers::write_magic(out, IMAGE_MAGIC);
    format_numbers::write_4(
        out,
        constants::IMAGE_POINT,
        h.point,
        h.destination,
        h.source,
        0,
    );
    format_numbers::write_u32(out, constants::IMAGE_MOVE, h.move_number);
    format_numbers::write_u32(out, constants::IMAGE_HEARD, h.heard);
}

// The three pairs of offset and length.
fn write_pairs(out: &mut [u8], h: ImageHead)
    requires { (least_image ≤ length out.old) × (h.floors ≤ client_count) × (h.entries ≤ record_count) }
    ensures { out.new ≡ written out.old image_pairs (pair_bytes h) }
{
    let records = format_image_rows::entries_start(h.floors) as u32;
    let entries = constants::ENTRY_ROW_U32 * h.entries;
    format_numbers::write_u32(out, constants::IMAGE_POINT_PAIR, constants::PARTS_START_U32);
    format_numbers::write_u32(
        out,
        constants::IMAGE_POINT_LENGTH,
        constants::POINT_PART_U32,
    );
    format_numbers::write_u32(
        out,
        constants::IMAGE_FLOORS_PAIR,
        constants::LEAST_IMAGE_U32,
    );
    format_numbers::write_u32(
        out,
        constants::IMAGE_FLOORS_LENGTH,
        constants::FLOOR_ROW_U32 * h.floors,
    );
    format_numbers::write_u32(out, constants::IMAGE_ENTRIES_PAIR, records);
    format_numbers::write_u32(out, constants::IMAGE_ENTRIES_LENGTH, entries);
}

fn write_point(out: &mut [u8], value: u32, quality: u8)
    requires { least_image ≤ length out.old }
    ensures { out.new ≡ written out.old parts_start (point_bytes value quality) }
{
    format_numbers::write_signed(out, constants::PARTS_START, value);
    format_numbers::write_4(out, constants::IMAGE_QUALITY, quality, 0, 0, 0);
}

// All that stands before the tables.
pub fn write_head(out: &mut [u8], h: ImageHead)
    requires { (least_image ≤ length out.old) × (h.floors ≤ client_count) × (h.entries ≤ record_count)
        × (h.timed ≡ true) }
    ensures { out.new ≡ written out.old 0 (image_head_bytes h) }
{
    write_frame(out, h);
    write_pairs(out, h);
    write_point(out, h.value, h.quality);
}

// ---- the tables

// n floors, from a table of rows of the same layout.
pub fn write_floors(out: &mut [u8], table: &[u8], n: usize)
    requires { (entries_start n ≤ length out.old) × (floor_row * n ≤ length table.now) }
    ensures { out.new ≡ written out.old least_image
        (bytes_of floor_bytes (rows floor_of_bytes floor_row n table.now)) }
{
    for i in 0..n {
        let f = format_floors::floor_from(table, FLOOR_ROW * i);
        format_floors::put_floor(out, LEAST_IMAGE + FLOOR_ROW * i, f);
    }
}
