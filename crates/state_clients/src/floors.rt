// A table of floors (rows of client and floor, 8 bytes) at a place of a slice: the place of a client in it, its floor,
// and the slot of one of its calls. Slice, place and number of the rows stay parameters: no plainer as a struct, since
// a caller makes one call or two, and would build it and prove its field for them.
ghost use Rattle.std.specs.Prelude.{◌≡◌, ◌+◌, ◌-◌, ◌*◌, ◌≤◌, length, drop, get_or};
ghost use Rattle.model.specs.Limits.{client_count, floor_row};
ghost use Rattle.model.specs.Tables.{rows};
ghost use Rattle.model.specs.Images.{floor_of_bytes, floor_of};
ghost use Rattle.state_clients.specs.Places.{place_of, slot_of, no_floor};

use model::constants;
use model::constants::FLOOR_ROW;

// The index of the client among n floors from at, n where it is not there. No Option: no plainer, since a client that
// is not there has slots too, behind those of the others.
pub fn client_place(s: &[u8], at: usize, n: usize, client: u32) -> usize
    requires { at + floor_row * n ≤ length s.now }
    ensures { result ≡ place_of client (rows floor_of_bytes floor_row n (drop at s.now)) }
{
    for i in 0..n {
        let f = format_floors::floor_from(s, at + FLOOR_ROW * i);
        if f.client == client {
            return i;
        }
    }
    n
}

// The floor of index i among n floors from at, 0 past them.
pub fn floor_at(s: &[u8], at: usize, n: usize, i: usize) -> u32
    requires { at + floor_row * n ≤ length s.now }
    ensures { result ≡ (get_or (rows floor_of_bytes floor_row n (drop at s.now)) i no_floor).floor }
{
    if i < n {
        format_floors::floor_from(s, at + FLOOR_ROW * i).floor
    } else {
        0
    }
}

// The floor of the client among n floors from at, 0 where it has none.
pub fn floor_of(s: &[u8], at: usize, n: usize, client: u32) -> u32
    requires { at + floor_row * n ≤ length s.now }
    ensures { result ≡ floor_of client (rows floor_of_bytes floor_row n (drop at s.now)) }
{
    let i = client_place(s, at, n, client);
    floor_at(s, at, n, i)
}

// How far a call is above a floor, 0 where it is under it.
pub fn call_above(call: u32, floor: u32) -> usize
    ensures { result ≡ call - floor }
{
    call.saturating_sub(floor) as usize
}

// The slot of a client's call, 16 for each of n floors from at.
pub fn slot_of(s: &[u8], at: usize, n: usize, client: u32, call: u32) -> usize
    requires { (at + floor_row * n ≤ length s.now) × (n ≤ client_count) }
    ensures { result ≡ slot_of (rows floor_of_bytes floor_row n (drop at s.now)) client call }
{
    let i = client_place(s, at, n, client);
    let floor = floor_at(s, at, n, i);
    constants::CALL_WINDOW * i + call_above(call, floor)
}
