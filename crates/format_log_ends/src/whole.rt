// The records of a log, one behind the other, once the first walk has found their end.
ghost use Rattle.std.specs.Prelude.{◌≡◌};
ghost use Rattle.model.specs.Limits.{head_size};
ghost use Rattle.format_log_ends.specs.Walked.{end_at, end_from};
ghost use Rattle.format_log_ends.specs.Records.{Ahead, Stepped, ahead, from_head};

use model::constants;

// The whole records from a place of the log on: each by its place and its size.
#[derive(Clone, Copy)]
pub struct Records<'a> {
    log: &'a [u8],
    at: usize,
    end: usize,
}

// From the end of the log's head on.
pub fn whole_records(log: &[u8], end: usize) -> Records<'_>
    requires { end_from log.now head_size ≡ end_at end }
    ensures { from_head log.now end result }
{
    Records {
        log,
        at: constants::HEAD_SIZE,
        end,
    }
}

impl<'a> Iterator for Records<'a> {
    type Item = (usize, usize);

    ghost can_next = { Ahead };

    ghost next_gives = { Stepped };

    ghost remaining = { ahead };

    fn next(&mut self) -> Option<(usize, usize)> {
        if self.end <= self.at {
            return None;
        }
        let at = self.at;
        let n = crate::size_at(self.log, at);
        self.at += n;
        Some((at, n))
    }
}
