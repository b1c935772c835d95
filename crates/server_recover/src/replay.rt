// The records of a log on the state in a buffer, each if it follows.
ghost use Rattle.std.specs.Prelude.{◌≡◌, true, ◌+◌, ◌-◌, ◌≤◌, length, drop};
ghost use Rattle.model.specs.Images.{image_ok};
ghost use Rattle.model.specs.Limits.{head_size};
ghost use Rattle.model.specs.Logs.{took, spans, record_at};
ghost use Rattle.model.specs.States.{load};
ghost use Rattle.model_laws.specs.Bytes.{part};
ghost use Rattle.format_log_ends.specs.Answers.{extent_from};
ghost use Rattle.format_log_ends.specs.Walked.{end_at, end_from};
ghost use Rattle.server_replay.specs.Standing.{Ready, ReplayedBy};
ghost use Rattle.server_recover.specs.Remaining.{image_between, RecordReplayedBy, StandsAt, Ended};

use format_log_ends::whole::whole_records;
use format_log_reader::Record;

// A take of the image between two places of the log.
fn replay_image(s: &mut [u8], log: &[u8], from: usize, to: usize, end: u64) -> bool
    requires { (from ≤ to) × (to ≤ length log.now) × Ready s.old (took (image_between log.now from to)) end
        × (image_ok (part from (to - from) log.now) ≡ true) }
    ensures { ReplayedBy (took (image_between log.now from to)) end s.old
        s.new result }
{
    server_replay::took::replay_took(s, &log[from..to], end)
}

// The whole record of n bytes at a place of the log, if it follows.
fn replay_record(s: &mut [u8], log: &[u8], at: usize, n: usize) -> bool
    requires { StandsAt s.old at × (extent_from log.now at ≡ spans n) }
    ensures { RecordReplayedBy (record_at (drop at log.now)) (at + n) s.old s.new
        result }
{
    let Some(found) = format_log_reader::record_at(log, at, n) else {
        return false;
    };
    let end = (at + n) as u64;
    match found {
        Record::Executed(executed) => server_replay::replay(s, executed, end),
        Record::Gone(notice) => server_replay::replay(s, notice, end),
        Record::Gave(g) => server_replay::replay(s, g, end),
        Record::Took(span) => replay_image(s, log, span.from, span.from + span.len, end),
        Record::Released(release) => server_replay::replay(s, release, end),
    }
}

// The second walk: the records of the log, from its head's end to the end of the last whole one.
pub fn replay_log(s: &mut [u8], log: &[u8], end: usize) -> bool
    requires { StandsAt s.old head_size × (end_from log.now head_size ≡ end_at end) }
    ensures { Ended log.now head_size (load s.old) s.new result }
{
    for (at, n) in whole_records(log, end) {
        if !replay_record(s, log, at, n) {
            return false;
        }
    }
    true
}
