// The clients' table of a server's state, changed in place: a client's floor raised, a client removed, an image's
// floors merged; and how many clients there would be after merging.
#![tactic(auto)]

pub mod floors;
pub mod rows;

ghost use Rattle.std.specs.Prelude.{◌≡◌, true, suc, ◌+◌, ◌*◌, ◌≤◌, ◌<◌, length, take, drop};
ghost use Rattle.model.specs.Limits.{client_count, least_image, floor_row};
ghost use Rattle.model.specs.Tables.{rows, keep};
ghost use Rattle.model.specs.Images.{floor_of_bytes, floor_of, clients_ascend};
ghost use Rattle.model.specs.States.{load};
ghost use Rattle.model.specs.Apply.{raise, is_not_client};
ghost use Rattle.model.specs.Operations.{stored};
ghost use Rattle.model_laws.specs.Layout.{with_floors};
ghost use Rattle.state_rows.specs.Canonical.{Canonical};
ghost use Rattle.state_clients.specs.Ordered.{placed, is_known, inserted, raised_at, moved_up, PackedBut, merged_by};

use model::Floor;
use model::constants::{FLOOR_ROW, FLOORS_START, LEAST_IMAGE};
use state_rows::state;

// ---- where a client stands

// The index at which the client stands, or at which it would: that of the first client that is not below it, the number
// of clients where there is none. A loop of its own beside that of `floors::client_place`: no plainer shared, since the
// test would be a closure with a law of its own, from which each of the two contracts would have to follow.
fn place(s: &[u8], client: u32) -> Result<usize, usize>
    requires { Canonical s.now }
    ensures { result ≡ placed client (load s.now).floors }
{
    let n = state::clients_of(s);
    for i in 0..n {
        let f = rows::row(s, i);
        if client <= f.client {
            return if f.client == client { Ok(i) } else { Err(i) };
        }
    }
    Err(n)
}

// The client is known.
pub fn is_known(s: &[u8], client: u32) -> bool
    requires { Canonical s.now }
    ensures { result ≡ is_known client (load s.now).floors }
{
    place(s, client).is_ok()
}

// ---- a floor raised, a client entered

// Raises the floor of the client, which has index i.
fn raise_at(s: &mut [u8], i: usize, client: u32, floor: u32)
    requires { Canonical s.old × (i < length (load s.old).floors) }
    ensures { s.new ≡ stored s.old
        (with_floors (raised_at i client floor (load s.old).floors) (load s.old)) }
{
    let f = rows::row(s, i);
    let high = format_numbers::greater(f.floor, floor);
    rows::set_row(
        s,
        i,
        Floor {
            client,
            floor: high,
        },
    );
}

// Of n + 1 rows, those from i on move up by one, the last but one first.
fn move_up(s: &mut [u8], i: usize, n: usize)
    requires { Canonical s.old × (length (load s.old).floors ≡ suc n) × (i ≤ n) }
    ensures { s.new ≡ stored s.old
        (with_floors (moved_up i n (load s.old).floors) (load s.old)) }
{
    for j in (i..n).rev() {
        let f = rows::row(s, j);
        rows::set_row(s, j + 1, f);
    }
}

// Enters the row f at index i: the rows from i on move up by one.
fn insert(s: &mut [u8], i: usize, f: Floor)
    requires { Canonical s.old × (i ≤ length (load s.old).floors)
        × (length (load s.old).floors < client_count) }
    ensures { s.new ≡ stored s.old
        (with_floors (inserted i f (load s.old).floors) (load s.old)) }
{
    let n = state::clients_of(s);
    rows::add_row(s, f);
    move_up(s, i, n);
    rows::set_row(s, i, f);
}

// Raises the floor of a client to the greater of the two, or enters the client with it.
pub fn raise(s: &mut [u8], client: u32, floor: u32)
    requires { Canonical s.old × (length (raise client floor (load s.old).floors) ≤ client_count) }
    ensures { s.new ≡ stored s.old
        (with_floors (raise client floor (load s.old).floors) (load s.old)) }
{
    match place(s, client) {
        Ok(i) => raise_at(s, i, client, floor),
        Err(i) => insert(s, i, Floor { client, floor }),
    }
}

// ---- a client removed

// Moves the rows of all clients but one to the front, in their order; how many they are.
fn pack(s: &mut [u8], client: u32) -> usize
    requires { Canonical s.old }
    ensures { PackedBut client s.old s.new result }
{
    let n = state::clients_of(s);
    let mut j = 0;
    for i in 0..n {
        let f = rows::row(s, i);
        if f.client != client {
            rows::set_row(s, j, f);
            j += 1;
        }
    }
    j
}

// The first k rows stay, the others are cleared.
fn cut(s: &mut [u8], k: usize)
    requires { Canonical s.old × (k ≤ length (load s.old).floors) }
    ensures { s.new ≡ stored s.old
        (with_floors (take k (load s.old).floors) (load s.old)) }
{
    for n in (k..state::clients_of(s)).rev() {
        rows::drop_row(s, n);
    }
}

// Removes a client.
pub fn remove(s: &mut [u8], client: u32)
    requires { Canonical s.old }
    ensures { s.new ≡ stored s.old
        (with_floors (keep (is_not_client client) (load s.old).floors) (load s.old)) }
{
    let k = pack(s, client);
    cut(s, k);
}

// ---- an image's floors

// Merges the n floors of an image, by the greater.
pub fn merge(s: &mut [u8], image: &[u8], n: usize)
    requires { Canonical s.old × (least_image + floor_row * n ≤ length image.now)
        × (length (merged_by image.now n s.old) ≤ client_count) }
    ensures { s.new ≡ stored s.old
        (with_floors (merged_by image.now n s.old) (load s.old)) }
{
    for i in 0..n {
        let f = format_floors::floor_from(image, LEAST_IMAGE + FLOOR_ROW * i);
        raise(s, f.client, f.floor);
    }
}

// How many clients there would be after merging the n floors of an image.
pub fn merged_count(s: &[u8], image: &[u8], n: usize) -> usize
    requires { Canonical s.now × (least_image + floor_row * n ≤ length image.now)
        × (clients_ascend (rows floor_of_bytes floor_row n (drop least_image image.now)) ≡ true) }
    ensures { result ≡ length (merged_by image.now n s.now) }
{
    let mut count = state::clients_of(s);
    for i in 0..n {
        let f = format_floors::floor_from(image, LEAST_IMAGE + FLOOR_ROW * i);
        if !is_known(s, f.client) {
            count += 1;
        }
    }
    count
}

// ---- a client's floor

// The floor of the client, 0 where it is not known.
pub fn floor_in(s: &[u8], client: u32) -> u32
    requires { Canonical s.now }
    ensures { result ≡ floor_of client (load s.now).floors }
{
    let n = state::clients_of(s);
    floors::floor_of(s, FLOORS_START, n, client)
}
