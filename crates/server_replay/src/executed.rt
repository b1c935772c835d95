// An executed record on the state in a buffer: whether it follows the state, and its replay there if it does.
ghost use Rattle.std.specs.Prelude.{◌≡◌, ◌≤◌};
ghost use Rattle.model.specs.Limits.{last_point};
ghost use Rattle.model.specs.Logs.{executed};
ghost use Rattle.model.specs.States.{load};
ghost use Rattle.model.specs.Decisions.{follows};
ghost use Rattle.state_rows.specs.Canonical.{Canonical};

use crate::Replayed;
use model::Executed;
use model::constants::EXECUTED_SIZE;
use state_records::ids;
use state_rows::state;

impl Replayed for Executed {
    ghost log_record = { executed };

    fn follows(self, s: &[u8]) -> bool
        requires { Canonical s.now × (self.command.point ≤ last_point) }
        ensures { result ≡ follows (load s.now) (executed self) }
    {
        let x = state::point_at(s, self.command.point);
        let e = state::entry_at(s, self.command.point);
        let floor = state_clients::floor_in(s, self.command.client);
        let fresh = ids::is_missing(s, self.command.client, self.command.call);
        let clients = state::clients_of(s);
        let asked = server_decide::request_refusal(x, false, floor, self.command.call);
        let new = server_decide::new_refusal(floor, clients, EXECUTED_SIZE);
        let in_range = format_numbers::in_range(e, self.result.value);
        asked.is_ok() & (fresh & (new.is_ok() & in_range))
    }

    fn apply(self, s: &mut [u8], end: u64) {
        server_apply::apply_executed(s, self, end);
    }
}
