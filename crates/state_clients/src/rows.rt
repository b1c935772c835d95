// The rows of the clients' table in a server's state, by their index: one read, one replaced, one added behind the
// last, the last taken away. What each leaves is again the bytes of a state.
ghost use Rattle.std.specs.Prelude.{◌≡◌, [], ◌∷◌, ◌++◌, suc, ◌<◌, length, get_or, set, take};
ghost use Rattle.model.specs.Limits.{client_count};
ghost use Rattle.model.specs.States.{load};
ghost use Rattle.model.specs.Operations.{stored};
ghost use Rattle.model_laws.specs.Layout.{with_floors};
ghost use Rattle.state_rows.specs.Canonical.{Canonical};
ghost use Rattle.state_clients.specs.Places.{no_floor};

use model::Floor;
use model::constants::{FLOOR_ROW, FLOORS_START};

// The client of index i and its floor.
pub fn row(s: &[u8], i: usize) -> Floor
    requires { Canonical s.now × (i < length (load s.now).floors) }
    ensures { result ≡ get_or (load s.now).floors i no_floor }
{
    format_floors::floor_from(s, FLOORS_START + FLOOR_ROW * i)
}

// Replaces the row of index i.
pub fn set_row(s: &mut [u8], i: usize, f: Floor)
    requires { Canonical s.old × (i < length (load s.old).floors) }
    ensures { s.new ≡ stored s.old
        (with_floors (set (load s.old).floors i f) (load s.old)) }
{
    format_floors::put_floor(s, FLOORS_START + FLOOR_ROW * i, f);
}

// Adds a row behind the last.
pub fn add_row(s: &mut [u8], f: Floor)
    requires { Canonical s.old × (length (load s.old).floors < client_count) }
    ensures { s.new ≡ stored s.old
        (with_floors ((load s.old).floors ++ (f ∷ [])) (load s.old)) }
{
    let number = state_rows::clients_in(s);
    format_floors::put_floor(s, FLOORS_START + FLOOR_ROW * (number as usize), f);
    state_rows::put_clients(s, number + 1);
}

// Takes the last row away: the first n stay.
pub fn drop_row(s: &mut [u8], n: usize)
    requires { Canonical s.old × (length (load s.old).floors ≡ suc n) }
    ensures { s.new ≡ stored s.old
        (with_floors (take n (load s.old).floors) (load s.old)) }
{
    format_floors::put_floor(
        s,
        FLOORS_START + FLOOR_ROW * n,
        Floor {
            client: 0,
            floor: 0,
        },
    );
    state_rows::put_clients(s, n as u32);
}
