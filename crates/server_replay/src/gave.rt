// A give record on the state in a buffer: whether it follows the state, and its replay there if it does.
ghost use Rattle.std.specs.Prelude.{◌≡◌, ◌≤◌};
ghost use Rattle.model.specs.Limits.{last_point, last_server};
ghost use Rattle.model.specs.Logs.{gave};
ghost use Rattle.model.specs.States.{load};
ghost use Rattle.model.specs.Decisions.{follows};
ghost use Rattle.state_rows.specs.Canonical.{Canonical};

use crate::Replayed;
use model::Give;
use model::constants::GIVE_SIZE;
use state_rows::state;

impl Replayed for Give {
    ghost log_record = { gave };

    fn follows(self, s: &[u8]) -> bool
        requires { Canonical s.now × (self.point ≤ last_point) × (self.destination ≤ last_server) }
        ensures { result ≡ follows (load s.now) (gave self) }
    {
        let x = state::point_at(s, self.point);
        let server = state::server_of(s);
        let given = server_decide::give_refusal(x, server, GIVE_SIZE, self.destination as u32);
        given.is_ok() & (self.move_number as u64 == x.move_number as u64 + 1)
    }

    fn apply(self, s: &mut [u8], end: u64) {
        server_apply::apply_gave(s, self, end);
    }
}
