// A row of a table of floors, client and floor in 8 bytes, at its place in a slice: read, stored and tested. Images and
// a server's state have such a table.
#![tactic(auto)]

ghost use Rattle.std.specs.Prelude.{◌≡◌, ◌+◌, ◌*◌, ◌≤◌, length, drop, ltb};
ghost use Rattle.model.specs.Limits.{floor_row};
ghost use Rattle.model.specs.Tables.{written};
ghost use Rattle.model.specs.Images.{floor_of_bytes, floor_bytes, floor_ok, in_window};

use model::{Floor, constants};

// The floor in the 8 bytes from k.
pub fn floor_from(s: &[u8], k: usize) -> Floor
    requires { k + floor_row ≤ length s.now }
    ensures { result ≡ floor_of_bytes (drop k s.now) }
{
    Floor {
        client: format_numbers::read_u32(s, k),
        floor: format_numbers::read_u32(s, k + constants::FLOOR_NUMBER),
    }
}

// Stores a floor in the 8 bytes from k.
pub fn put_floor(out: &mut [u8], k: usize, f: Floor)
    requires { k + floor_row ≤ length out.old }
    ensures { out.new ≡ written out.old k (floor_bytes f) }
{
    format_numbers::write_u32(out, k, f.client);
    format_numbers::write_u32(out, k + constants::FLOOR_NUMBER, f.floor);
}

// The floor from k: client and floor are from 1.
pub fn floor_ok(s: &[u8], k: usize) -> bool
    requires { k + floor_row ≤ length s.now }
    ensures { result ≡ floor_ok (floor_of_bytes (drop k s.now)) }
{
    let f = floor_from(s, k);
    (1 <= f.client) & (1 <= f.floor)
}

// The client of the floor from k is below that of the next.
pub fn client_before(s: &[u8], k: usize) -> bool
    requires { k + 2 * floor_row ≤ length s.now }
    ensures { result ≡ ltb (floor_of_bytes (drop k s.now)).client
        (floor_of_bytes (drop (k + floor_row) s.now)).client }
{
    let f = floor_from(s, k);
    let row = floor_from(s, k + constants::FLOOR_ROW);
    f.client < row.client
}

// The call is from floor to floor + 15, and the client has a floor.
pub fn in_window(floor: u32, call: u32) -> bool
    ensures { result ≡ in_window floor call }
{
    (1 <= floor) & ((floor <= call) & (call as u64 <= floor as u64 + constants::LAST_IN_WINDOW))
}
