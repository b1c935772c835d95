// The log's head, and where its records end; whole: its records, one behind the other.
#![tactic(auto)]

pub mod whole;

ghost use Rattle.std.specs.Prelude.{◌≡◌, ◌≤◌, length};
ghost use Rattle.model.specs.Limits.{head_size};
ghost use Rattle.model.specs.Logs.{head_server, head_ok, spans, within, take_extent, extent_of};
ghost use Rattle.model.specs.Operations.{log_end_of};
ghost use Rattle.format_log_ends.specs.Answers.{extent_means, extent_from, WholeAt};
ghost use Rattle.format_log_ends.specs.Walked.{log_end, end_from};

use model::{LogEnd, constants};

// Where a record ends: its layout is broken, it is incomplete, or it spans that many bytes, all there.
#[derive(Clone, Copy)]
pub enum Extent {
    Off,
    Cut,
    Spans(usize),
}

// ---- head

// 57 4C 47 31, a server number, three zeros.
pub fn head_ok(log: &[u8]) -> bool
    ensures { result ≡ head_ok log.now }
{
    if log.len() < constants::HEAD_SIZE {
        return false;
    }
    let magic = format_numbers::starts_with(log, constants::LOG_MAGIC);
    let zeros = format_numbers::zeros3_at(log, constants::HEAD_ZEROS);
    magic & ((log[constants::HEAD_SERVER] <= constants::LAST_SERVER) & zeros)
}

pub fn head_server(log: &[u8]) -> u8
    requires { head_size ≤ length log.now }
    ensures { result ≡ head_server log.now }
{
    log[constants::HEAD_SERVER]
}

// ---- extents

// A record of n bytes, where they are all there.
fn extent_within(s: &[u8], n: usize) -> Extent
    ensures { extent_means result ≡ within s.now n }
{
    if s.len() < n {
        return Extent::Cut;
    }
    Extent::Spans(n)
}

// A take: its image's length is read once its 4 bytes are there.
fn take_extent(s: &[u8]) -> Extent
    ensures { extent_means result ≡ take_extent s.now }
{
    if s.len() < constants::TAKE_HEAD {
        return Extent::Cut;
    }
    let n = format_numbers::read_u32(s, constants::TAKE_LENGTH) as usize;
    if (n < constants::LEAST_IMAGE) | (constants::GREATEST_IMAGE < n) {
        return Extent::Off;
    }
    extent_within(s, constants::TAKE_HEAD + n)
}

// The record at the front of s.
fn extent_of(s: &[u8]) -> Extent
    requires { 1 ≤ length s.now }
    ensures { extent_means result ≡ extent_of s.now }
{
    match s[0] {
        constants::FIRST_EXECUTED_KIND => extent_within(s, constants::FIRST_EXECUTED_SIZE),
        constants::GONE_KIND => extent_within(s, constants::GONE_SIZE),
        constants::GIVE_KIND => extent_within(s, constants::GIVE_SIZE),
        constants::TAKE_KIND => take_extent(s),
        constants::RELEASE_KIND => extent_within(s, constants::RELEASE_SIZE),
        constants::EXECUTED_KIND => extent_within(s, constants::EXECUTED_SIZE),
        0 | 7..=255 => Extent::Off,
    }
}

// The record at a place of the log; where nothing stands, one of which all bytes are cut.
pub fn extent_at(log: &[u8], at: usize) -> Extent
    ensures { extent_means result ≡ extent_from log.now at }
{
    if log.len() <= at {
        return Extent::Cut;
    }
    extent_of(&log[at..])
}

// The size of the whole record at a place of the log.
pub fn size_at(log: &[u8], at: usize) -> usize
    requires { WholeAt log.now at }
    ensures { extent_from log.now at ≡ spans result }
{
    match log[at] {
        constants::FIRST_EXECUTED_KIND => constants::FIRST_EXECUTED_SIZE,
        constants::GONE_KIND => constants::GONE_SIZE,
        constants::GIVE_KIND => constants::GIVE_SIZE,
        constants::TAKE_KIND => {
            constants::TAKE_HEAD
                + format_numbers::read_u32(log, at + constants::TAKE_LENGTH) as usize
        }
        constants::RELEASE_KIND => constants::RELEASE_SIZE,
        _ => constants::EXECUTED_SIZE,
    }
}

// ---- the first walk

// The refusal's number, 0 for none, and the end.
fn answered(refusal: u32, end: usize) -> LogEnd
    ensures { result ≡ log_end refusal end }
{
    LogEnd {
        refusal,
        end: end as u64,
    }
}

// From the end of a log's head on.
fn records_end(log: &[u8]) -> LogEnd
    ensures { result ≡ end_from log.now head_size }
{
    let mut at = constants::HEAD_SIZE;
    loop {
        let extent = extent_at(log, at);
        match extent {
            Extent::Off => return answered(constants::BAD_LOG, 0),
            Extent::Cut => return answered(constants::NO_REFUSAL, at),
            Extent::Spans(n) => at += n,
        }
    }
}

// The end of a log's last whole record, by the kinds and image lengths of its records alone; 14 where one of them, or
// the head, is off its layout.
pub fn log_end(log: &[u8]) -> LogEnd
    ensures { result ≡ log_end_of log.now }
{
    if !head_ok(log) {
        return answered(constants::BAD_LOG, 0);
    }
    records_end(log)
}
