// A gone record on the state in a buffer: whether it follows the state, and its replay there if it does.
ghost use Rattle.std.specs.Prelude.{◌≡◌};
ghost use Rattle.model.specs.Logs.{gone};
ghost use Rattle.model.specs.States.{load};
ghost use Rattle.model.specs.Decisions.{follows};
ghost use Rattle.state_rows.specs.Canonical.{Canonical};

use crate::Replayed;
use model::Notice;
use model::constants::GONE_SIZE;

impl Replayed for Notice {
    ghost log_record = { gone };

    fn follows(self, s: &[u8]) -> bool
        requires { Canonical s.now }
        ensures { result ≡ follows (load s.now) (gone self) }
    {
        let floor = state_clients::floor_in(s, self.client);
        server_decide::notice_refusal(floor, GONE_SIZE).is_ok()
    }

    fn apply(self, s: &mut [u8], end: u64) {
        server_apply::apply_gone(s, self, end);
    }
}
