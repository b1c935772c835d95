// Recover: the state that a kept log gives, from founding.
ghost use Rattle.std.specs.Prelude.{◌≡◌, true, [], length};
ghost use Rattle.model.specs.Plan.{plan_ok, plan_of};
ghost use Rattle.model.specs.States.{state_end};
ghost use Rattle.model.specs.Operations.{after, recovered_state, recover_of};
ghost use Rattle.refusals.specs.Numbers.{answered};
ghost use Rattle.server_recover.specs.Rebuilt.{Begun};

use refusals::Refusal;

// The state that founding leaves, for the server of the log's head.
fn begin(work: &mut [u8], log: &[u8], plan: &[u8]) -> Result<(), Refusal>
    requires { (length work.old ≡ state_end) × (plan_ok plan.now ≡ true) }
    ensures { Begun (recovered_state (plan_of plan.now) log.now) log.now
        work.new result }
{
    if !format_log_ends::head_ok(log) {
        return Err(Refusal::BadLog);
    }
    let server = format_log_ends::head_server(log);
    server_found::found_state(work, plan, server);
    Ok(())
}

// 2 state too short; 1 bad plan; 14 the head or a whole record breaks its layout, or a record cannot follow the state;
// else the state that the log's whole records give, and the mark is their end.
pub fn recover(state: &mut [u8], log: &[u8], plan: &[u8]) -> Result<u32, Refusal>
    ensures { after (answered result) state.new log.now []
        ≡ recover_of state.old log.now plan.now }
{
    let good = format_commands::plan_ok(plan);
    server_decide::recover_refusal(state.len(), good)?;
    let mut work = state_rows::blank();
    begin(&mut work, log, plan)?;
    crate::rebuild::rebuild(state, &mut work, log)
}
