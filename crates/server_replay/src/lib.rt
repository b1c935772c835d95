// One log record on the state in a buffer, a module for each kind: whether it follows the state, and its replay there
// if it does.
#![tactic(auto)]

mod executed;
mod gave;
mod gone;
mod released;
pub mod took;

ghost use Rattle.std.specs.Prelude.{◌≡◌, true};
ghost use Rattle.model.specs.Logs.{LogRecord};
ghost use Rattle.model.specs.States.{load};
ghost use Rattle.model.specs.Apply.{apply_record};
ghost use Rattle.model.specs.Decisions.{follows};
ghost use Rattle.model.specs.Operations.{stored};
ghost use Rattle.model_invariants.specs.Sound.{GoodRecord};
ghost use Rattle.server_replay.specs.Standing.{Standing, Ready, ReplayedBy};

// What stands for a record of the log: its test, and what replay does with it.
pub trait Replayed {
    ghost log_record: { Self → LogRecord };

    fn follows(self, s: &[u8]) -> bool
        requires { Standing s.now × GoodRecord (log_record self) }
        ensures { result ≡ follows (load s.now) (log_record self) };

    fn apply(self, s: &mut [u8], end: u64)
        requires { Ready s.old (log_record self) end × (true ≡ follows (load s.old) (log_record self)) }
        ensures { s.new ≡ stored s.old (apply_record (log_record self) end (load s.old)) };
}

pub fn replay<R: Replayed + Copy>(s: &mut [u8], item: R, end: u64) -> bool
    requires { Ready s.old (R.log_record item) end }
    ensures { ReplayedBy (R.log_record item) end s.old s.new result }
{
    if !item.follows(s) {
        return false;
    }
    item.apply(s, end);
    true
}
