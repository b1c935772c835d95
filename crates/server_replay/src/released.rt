// A release record on the state in a buffer: whether it follows the state, and its replay there if it does.
ghost use Rattle.std.specs.Prelude.{◌≡◌, ◌≤◌};
ghost use Rattle.model.specs.Limits.{last_point};
ghost use Rattle.model.specs.Logs.{released};
ghost use Rattle.model.specs.States.{load};
ghost use Rattle.model.specs.Decisions.{follows};
ghost use Rattle.state_rows.specs.Canonical.{Canonical};

use crate::Replayed;
use model::Release;
use model::constants::RELEASE_SIZE;
use state_rows::state;

impl Replayed for Release {
    ghost log_record = { released };

    fn follows(self, s: &[u8]) -> bool
        requires { Canonical s.now × (self.point ≤ last_point) }
        ensures { result ≡ follows (load s.now) (released self) }
    {
        let x = state::point_at(s, self.point);
        let given = server_decide::release_refusal(x, RELEASE_SIZE, self.move_number);
        given.is_ok() & (self.move_number == x.move_number)
    }

    fn apply(self, s: &mut [u8], end: u64) {
        server_apply::apply_released(s, self, end);
    }
}
