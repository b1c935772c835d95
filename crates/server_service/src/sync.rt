// Sync: the log is kept up to a mark. It answers and leaves its lent slices as its definition says, for all arguments.
ghost use Rattle.std.specs.Prelude.{◌≡◌, []};
ghost use Rattle.model.specs.States.{load};
ghost use Rattle.model.specs.Decisions.{on_sync};
ghost use Rattle.model.specs.Operations.{after, sync_of};
ghost use Rattle.refusals.specs.Numbers.{answered};
ghost use Rattle.state_rows.specs.Canonical.{Canonical};
ghost use Rattle.server_memory.specs.Memory.{SettledBeside};

use refusals::Refusal;
use state_rows::state;

// Once the tests of lent memory are passed: 10 below the present mark or above the log's length; else the mark is set.
fn synced(s: &mut [u8], mark: u64) -> Result<u32, Refusal>
    requires { Canonical s.old }
    ensures { SettledBeside (on_sync (load s.old) mark) s.old [] (answered result) s.new [] }
{
    let present = state::mark_of(s);
    let size = state::size_of(s);
    server_decide::sync_refusal(present, size, mark)?;
    state::set_mark(s, mark);
    Ok(0)
}

// 2; 19; 10 below the present mark or above the log's length; else the mark is set.
pub fn sync(s: &mut [u8], log: &[u8], mark: u64) -> Result<u32, Refusal>
    ensures { after (answered result) s.new log.now []
        ≡ sync_of s.old log.now mark }
{
    server_memory::lent_refusal(s, log, 0, 0)?;
    synced(s, mark)
}
