// Give: a point goes to another server. It answers and leaves its lent slices as its definition says, for all
// arguments.
ghost use Rattle.std.specs.Prelude.{◌≡◌, ◌+◌, ◌≤◌, [], length, Ok};
ghost use Rattle.model.specs.Choice.{append};
ghost use Rattle.model.specs.Limits.{give_size};
ghost use Rattle.model.specs.Logs.{gave};
ghost use Rattle.model.specs.States.{load};
ghost use Rattle.model.specs.Operations.{after, settle, give_of};
ghost use Rattle.refusals.specs.Numbers.{refusal_of, answered};
ghost use Rattle.model_invariants.specs.Passed.{PassedGive};
ghost use Rattle.state_rows.specs.Canonical.{Canonical};
ghost use Rattle.server_moves.specs.Numbers.{give_for, give_number};

use model::{Give, constants};
use refusals::Refusal;
use state_rows::state;

// 2; 19; 1; 3; 11; 16; 9.
fn give_number(s: &[u8], log: &[u8], point: u32, destination: u32) -> Result<(), Refusal>
    ensures { refusal_of result ≡ give_number s.now log.now point destination }
{
    server_memory::lent_refusal(s, log, 0, 0)?;
    if server_decide::places_bad(point, destination) {
        return Err(Refusal::Malformed);
    }
    let x = state::point_at(s, point as u8);
    let server = state::server_of(s);
    let free = server_memory::free_in(s, log);
    server_decide::give_refusal(x, server, free, destination)
}

// A give that is not refused.
fn give_done(s: &mut [u8], log: &mut [u8], point: u8, destination: u8)
    requires { Canonical s.old × PassedGive (load s.old) point destination
        × ((load s.old).size + give_size ≤ length log.old) }
    ensures { after (answered (Ok 0)) s.new log.new []
        ≡ settle s.old log.old []
        (append (gave (give_for (load s.old) point destination))) }
{
    let size = state::size_of(s);
    let x = state::point_at(s, point);
    let g = Give {
        point,
        destination,
        move_number: x.move_number + 1,
    };
    format_log_writer::append(log, size as usize, g);
    server_apply::apply_gave(s, g, size + constants::GIVE_SIZE_U64);
}

// 2; 19; 1; 3; 11 destination is this server; 16 move number at its greatest; 9; else the point is given.
pub fn give(s: &mut [u8], log: &mut [u8], point: u32, destination: u32) -> Result<u32, Refusal>
    ensures { after (answered result) s.new log.new []
        ≡ give_of s.old log.old point destination }
{
    give_number(s, log, point, destination)?;
    give_done(s, log, point as u8, destination as u8);
    Ok(0)
}
