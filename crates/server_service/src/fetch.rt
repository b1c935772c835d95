// Fetch: a held result's packet. It answers and leaves its lent slices as its definition says, for all arguments.
ghost use Rattle.std.specs.Prelude.{◌≡◌, ◌≤◌, length};
ghost use Rattle.model.specs.Limits.{result_size};
ghost use Rattle.model.specs.States.{load};
ghost use Rattle.model.specs.Decisions.{on_fetch};
ghost use Rattle.model.specs.Versions.{today};
ghost use Rattle.model.specs.Operations.{after, fetch_of};
ghost use Rattle.refusals.specs.Numbers.{answered};
ghost use Rattle.state_rows.specs.Canonical.{Canonical};
ghost use Rattle.server_memory.specs.Memory.{SettledBeside};

use model::constants;
use refusals::Refusal;
use state_rows::state;

// Once the tests of lent memory are passed: 17 none held; 7 not synced; else the result packet.
fn fetched(s: &[u8], client: u32, call: u32, out: &mut [u8]) -> Result<u32, Refusal>
    requires { Canonical s.now × (result_size ≤ length out.old) }
    ensures { SettledBeside (on_fetch today (load s.now) client call)
        s.now out.old (answered result) s.now out.new }
{
    let r = state_records::find(s, client, call).ok_or(Refusal::Unknown)?;
    let mark = state::mark_of(s);
    server_decide::fetch_refusal(mark, r)?;
    Ok(crate::reply::reply(out, r))
}

// 2; 19; 17 none held; 7 not synced; else the result packet.
pub fn fetch(s: &[u8], log: &[u8], client: u32, call: u32, out: &mut [u8]) -> Result<u32, Refusal>
    ensures { after (answered result) s.now log.now out.new
        ≡ fetch_of today s.now log.now client call out.old }
{
    server_memory::lent_refusal(s, log, out.len(), constants::RESULT_SIZE)?;
    fetched(s, client, call, out)
}
