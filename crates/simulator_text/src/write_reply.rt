// An answer, written behind what stands on a page. A struct of the page and its length was tried, and is no plainer:
// each of its methods has to promise also that it keeps the page's reference. The digits are put by hand: std's Display
// puts them into a buffer of its own, and copies them from there.
ghost use Rattle.std.specs.Prelude.{[], ◌∷◌, ◌++◌, ◌+◌, ◌≤◌, ◌<◌, length};
ghost use Rattle.model.specs.Letters.{space, most_digits, signed_room, field_room, reply_room};
ghost use Rattle.model.specs.Simulator.{digits_of, shown, shown_signed, reply_text};
ghost use Rattle.simulator_text.specs.Values.{reply_is, Put};

use crate::Reply;
use model::constants;

// The digits of a number of 32 bits, at the most.
const DIGITS: u32 = 10;

// The bytes of an answer, at the most: three numbers with a space each, a signed one, a line feed.
pub const REPLY_ROOM: usize = 3 * (DIGITS as usize + 1) + (1 + DIGITS as usize) + 1;

fn put_byte(page: &mut [u8], at: usize, b: u8) -> usize
    requires { at < length page.old }
    ensures { Put page.old at (b ∷ []) page.new result }
{
    page[at] = b;
    at + 1
}

// At most room digits of v.
fn put_digits(page: &mut [u8], at: usize, room: u32, v: u32) -> usize
    requires { at + room ≤ length page.old }
    ensures { Put page.old at (digits_of room v) page.new result }
{
    if room == 0 {
        return at;
    }
    if v < 10 {
        return put_byte(page, at, b'0' + v as u8);
    }
    let count = put_digits(page, at, room - 1, v / 10);
    put_byte(page, count, b'0' + (v % 10) as u8)
}

fn put_number(page: &mut [u8], at: usize, v: u32) -> usize
    requires { at + most_digits ≤ length page.old }
    ensures { Put page.old at (shown v) page.new result }
{
    put_digits(page, at, DIGITS, v)
}

fn put_signed(page: &mut [u8], at: usize, v: u32) -> usize
    requires { at + signed_room ≤ length page.old }
    ensures { Put page.old at (shown_signed v) page.new result }
{
    if v < constants::HALF {
        let count = put_byte(page, at, b'-');
        return put_number(page, count, constants::HALF - v);
    }
    put_number(page, at, v - constants::HALF)
}

// A number and the space behind it.
fn put_field(page: &mut [u8], at: usize, v: u32) -> usize
    requires { at + field_room ≤ length page.old }
    ensures { Put page.old at (shown v ++ (space ∷ [])) page.new result }
{
    let count = put_number(page, at, v);
    put_byte(page, count, b' ')
}

// The answer of the line of this number.
pub fn put_reply(page: &mut [u8], at: usize, number: u32, reply: Reply) -> usize
    requires { at + reply_room ≤ length page.old }
    ensures { Put page.old at (reply_text number (reply_is reply)) page.new result }
{
    let i = put_field(page, at, number);
    let j = put_field(page, i, reply.number);
    let k = put_field(page, j, reply.made);
    let n = put_signed(page, k, reply.value);
    put_byte(page, n, b'\n')
}
