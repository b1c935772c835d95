// Completion records and head of a moving image at their places in a slice, and the tests of one record, of two
// neighbours and of the head. Its floors are read and tested by `format_floors`.
#![tactic(auto)]

ghost use Rattle.std.specs.Prelude.{◌≡◌, ◌+◌, ◌*◌, ◌/◌, ◌≤◌, ◌<◌, length, drop};
ghost use Rattle.model.specs.Limits.{least_image, first_entry_row};
ghost use Rattle.model.specs.Numbers.{word, starts_with};
ghost use Rattle.model.specs.Images.{image_magic, image_entry_of, image_head_of, entry_row_of, entry_width, entries_start, greatest_of};
ghost use Rattle.model.specs.Images.{image_framed, image_head_ok, image_parts, entry_row_ok, entry_in_range};
ghost use Rattle.format_image_rows.specs.Order.{entry_before};

use model::{CommandResult, ImageEntry, ImageHead, PlanEntry, constants};

// ---- the form: with times, or the first one, without

// The form of an image, by the four bytes that open it.
pub fn timed_in(s: &[u8]) -> bool
    requires { least_image ≤ length s.now }
    ensures { result ≡ starts_with s.now image_magic }
{
    format_numbers::starts_with(s, constants::IMAGE_MAGIC)
}

// The greatest length.
pub fn greatest(timed: bool) -> usize
    ensures { result ≡ greatest_of timed }
{
    if timed {
        constants::GREATEST_IMAGE
    } else {
        constants::FIRST_GREATEST_IMAGE
    }
}

// How many completion records have so many bytes.
fn entries_in(size: u32, timed: bool) -> u32
    ensures { result ≡ size / entry_row_of timed }
{
    if timed {
        size / constants::ENTRY_ROW_U32
    } else {
        size / (constants::FIRST_ENTRY_ROW as u32)
    }
}

// ---- places

// The bytes of a completion record in an image with the head h.
pub fn entry_width(h: ImageHead) -> usize
    ensures { result ≡ entry_width h }
{
    if h.timed {
        constants::ENTRY_ROW
    } else {
        constants::FIRST_ENTRY_ROW
    }
}

// Where the completion records start, behind so many floors.
pub fn entries_start(floors: u32) -> usize
    ensures { result ≡ entries_start floors }
{
    constants::LEAST_IMAGE + constants::FLOOR_ROW * (floors as usize)
}

// Where the record of index i starts, of records of a width from k.
pub fn entry_at(k: usize, width: usize, i: usize) -> usize
    requires { k + width * i < word * word }
    ensures { result ≡ k + width * i }
{
    k + width * i
}

// ---- rows and head, at their places

// The completion record from k, of an image in the form.
pub fn entry_from(s: &[u8], k: usize, timed: bool) -> ImageEntry
    requires { k + entry_row_of timed ≤ length s.now }
    ensures { result ≡ image_entry_of timed (drop k s.now) }
{
    let result = CommandResult {
        outcome: s[k + constants::ENTRY_OUTCOME],
        value: format_numbers::read_signed(s, k + constants::ENTRY_VALUE),
        quality: s[k + constants::ENTRY_QUALITY],
        time: format_numbers::time_at(s, timed, k + constants::ENTRY_TIME),
    };
    ImageEntry {
        client: format_numbers::read_u32(s, k),
        call: format_numbers::read_u32(s, k + constants::ENTRY_CALL),
        op: s[k + constants::ENTRY_OP],
        argument: format_numbers::read_signed(s, k + constants::ENTRY_ARGUMENT),
        result,
    }
}

// The fields outside the two tables, with the numbers of their rows.
pub fn head_from(s: &[u8]) -> ImageHead
    requires { least_image ≤ length s.now }
    ensures { result ≡ image_head_of s.now }
{
    let timed = timed_in(s);
    let entries = entries_in(
        format_numbers::read_u32(s, constants::IMAGE_ENTRIES_LENGTH),
        timed,
    );
    ImageHead {
        point: s[constants::IMAGE_POINT],
        destination: s[constants::IMAGE_DESTINATION],
        source: s[constants::IMAGE_SOURCE],
        move_number: format_numbers::read_u32(s, constants::IMAGE_MOVE),
        heard: format_numbers::read_u32(s, constants::IMAGE_HEARD),
        value: format_numbers::read_signed(s, constants::PARTS_START),
        quality: s[constants::IMAGE_QUALITY],
        floors: format_numbers::read_u32(s, constants::IMAGE_FLOORS_LENGTH)
            / constants::FLOOR_ROW_U32,
        entries,
        timed,
    }
}

// ---- tests of the head

// The four bytes, of either form, and the zero bytes.
pub fn framed(s: &[u8]) -> bool
    requires { least_image ≤ length s.now }
    ensures { result ≡ image_framed s.now }
{
    let timed = timed_in(s);
    let first = format_numbers::starts_with(s, constants::FIRST_IMAGE_MAGIC);
    let zeros = format_numbers::zeros3_at(s, constants::IMAGE_ZEROS);
    (timed | first) & ((s[constants::IMAGE_ZERO] == 0) & zeros)
}

pub fn head_ok(h: ImageHead) -> bool
    ensures { result ≡ image_head_ok h }
{
    (h.point <= constants::LAST_POINT)
        & ((h.destination <= constants::LAST_SERVER)
            & ((h.source <= constants::LAST_SERVER)
                & ((h.quality <= constants::LAST_QUALITY)
                    & (h.floors <= constants::CLIENT_COUNT_U32))))
}

// Three parts without gaps from byte 40 to the slice's end.
pub fn parts_ok(s: &[u8], h: ImageHead) -> bool
    requires { least_image ≤ length s.now }
    ensures { result ≡ image_parts h s.now }
{
    let floors = constants::FLOOR_ROW * (h.floors as usize);
    let entries = entry_width(h) * (h.entries as usize);
    let records = entries_start(h.floors);
    let first = format_numbers::read_u32(s, constants::IMAGE_POINT_PAIR);
    let first_length = format_numbers::read_u32(s, constants::IMAGE_POINT_LENGTH);
    let second = format_numbers::read_u32(s, constants::IMAGE_FLOORS_PAIR);
    let second_length = format_numbers::read_u32(s, constants::IMAGE_FLOORS_LENGTH) as usize;
    let third = format_numbers::read_u32(s, constants::IMAGE_ENTRIES_PAIR) as usize;
    let third_length = format_numbers::read_u32(s, constants::IMAGE_ENTRIES_LENGTH) as usize;
    (first == constants::PARTS_START_U32)
        & ((first_length == constants::POINT_PART_U32)
            & ((second == constants::LEAST_IMAGE_U32)
                & ((second_length == floors)
                    & ((third == records)
                        & ((third_length == entries) & (s.len() == records + entries))))))
}

// ---- tests of a row

// The zero byte of the row from k.
pub fn entry_row_ok(s: &[u8], k: usize) -> bool
    requires { k + first_entry_row ≤ length s.now }
    ensures { result ≡ entry_row_ok (drop k s.now) }
{
    format_numbers::zero_at(s, k + constants::ENTRY_ZERO)
}

// The id of the record from k is before that of the next. Not as pairs by `<`: no plainer, and that has jumps.
pub fn id_before(s: &[u8], k: usize, width: usize, timed: bool) -> bool
    requires { (k + entry_row_of timed ≤ length s.now) × (k + width + entry_row_of timed ≤ length s.now) }
    ensures { result ≡ entry_before (image_entry_of timed (drop k s.now))
        (image_entry_of timed (drop (k + width) s.now)) }
{
    let entry = entry_from(s, k, timed);
    let next = entry_from(s, k + width, timed);
    (entry.client < next.client) | ((entry.client == next.client) & (entry.call < next.call))
}

// The value of the record from k.
pub fn entry_in_range(s: &[u8], e: PlanEntry, k: usize, timed: bool) -> bool
    requires { k + entry_row_of timed ≤ length s.now }
    ensures { result ≡ entry_in_range e (image_entry_of timed (drop k s.now)) }
{
    let entry = entry_from(s, k, timed);
    format_numbers::in_range(e, entry.result.value)
}
