// What a whole record of the log says; `format_log_ends` tells where it ends.
#![tactic(auto)]

ghost use Rattle.std.specs.Prelude.{◌≡◌, ◌+◌, ◌*◌, ◌≤◌, ◌<◌, length};
ghost use Rattle.model.specs.Numbers.{word};
ghost use Rattle.model.specs.Limits.{gone_size, give_size, take_head, release_size};
ghost use Rattle.model.specs.Logs.{extent_of, spans};
ghost use Rattle.model.specs.Logs.{executed_size_of, executed_at, executed_ok, give_at, give_ok, release_at, release_ok};
ghost use Rattle.format_log_ends.specs.Answers.{extent_from};
ghost use Rattle.format_log_reader.specs.Answers.{Parsed};
ghost use Rattle.format_log_reader.specs.Answers.{executed_from, gone_from, give_from, take_from, release_from, record_from};

use model::{Command, CommandResult, Executed, Give, Notice, Release, constants};

// A part of the log: len bytes from a place.
#[derive(Clone, Copy)]
pub struct Span {
    pub from: usize,
    pub len: usize,
}

// What a whole record says, where it is not broken; a take's image stays at its place in the log.
#[derive(Clone, Copy)]
pub enum Record {
    Executed(Executed),
    Gone(Notice),
    Gave(Give),
    Took(Span),
    Released(Release),
}

// ---- records, by kind

// In its form with a time, or without.
fn executed_at(s: &[u8], timed: bool) -> Executed
    requires { executed_size_of timed ≤ length s.now }
    ensures { result ≡ executed_at timed s.now }
{
    let command = Command {
        client: format_numbers::read_u32(s, constants::EXECUTED_CLIENT),
        call: format_numbers::read_u32(s, constants::EXECUTED_CALL),
        op: s[constants::EXECUTED_OP],
        point: s[constants::EXECUTED_POINT],
        argument: format_numbers::read_signed(s, constants::EXECUTED_ARGUMENT),
    };
    let result = CommandResult {
        outcome: s[constants::EXECUTED_OUTCOME],
        value: format_numbers::read_signed(s, constants::EXECUTED_VALUE),
        quality: s[constants::EXECUTED_QUALITY],
        time: format_numbers::time_at(s, timed, constants::EXECUTED_TIME),
    };
    Executed {
        command,
        done: format_numbers::read_u32(s, constants::EXECUTED_DONE),
        result,
        timed,
    }
}

fn executed_ok(executed: Executed) -> bool
    ensures { result ≡ executed_ok executed }
{
    let command = format_numbers::command_ok(
        executed.command.op,
        executed.command.point,
        executed.command.argument,
    );
    let outcome = format_numbers::outcome_ok(executed.result.outcome, executed.result.quality);
    let id = format_numbers::id_ok(executed.command.client, executed.command.call);
    let done = format_numbers::done_ok(executed.done, executed.command.call);
    command & (outcome & (id & done))
}

fn give_at(s: &[u8]) -> Give
    requires { give_size ≤ length s.now }
    ensures { result ≡ give_at s.now }
{
    Give {
        point: s[constants::GIVE_POINT],
        destination: s[constants::GIVE_DESTINATION],
        move_number: format_numbers::read_u32(s, constants::GIVE_MOVE),
    }
}

fn give_ok(g: Give) -> bool
    ensures { result ≡ give_ok g }
{
    (g.point <= constants::LAST_POINT) & (g.destination <= constants::LAST_SERVER)
}

fn release_at(s: &[u8]) -> Release
    requires { release_size ≤ length s.now }
    ensures { result ≡ release_at s.now }
{
    Release {
        point: s[constants::RELEASE_POINT],
        move_number: format_numbers::read_u32(s, constants::RELEASE_MOVE),
    }
}

fn release_ok(release: Release) -> bool
    ensures { result ≡ release_ok release }
{
    release.point <= constants::LAST_POINT
}

// Each of these answers what was found, if its zero bytes and fields are as they should be.
fn executed_from(s: &[u8], timed: bool) -> Option<Record>
    requires { executed_size_of timed ≤ length s.now }
    ensures { result ≡ executed_from timed s.now }
{
    let executed = executed_at(s, timed);
    let ok = format_numbers::zeros3_at(s, constants::EXECUTED_ZEROS) & executed_ok(executed);
    ok.then_some(Record::Executed(executed))
}

fn gone_from(s: &[u8]) -> Option<Record>
    requires { gone_size ≤ length s.now }
    ensures { result ≡ gone_from s.now }
{
    let notice = format_fields::notice_at(s);
    let ok = format_numbers::zeros3_at(s, constants::NOTICE_ZEROS)
        & format_fields::notice_ok(notice);
    ok.then_some(Record::Gone(notice))
}

fn give_from(s: &[u8]) -> Option<Record>
    requires { give_size ≤ length s.now }
    ensures { result ≡ give_from s.now }
{
    let g = give_at(s);
    let ok = format_numbers::zero_at(s, constants::GIVE_ZERO) & give_ok(g);
    ok.then_some(Record::Gave(g))
}

// A take of n bytes at a place of the log; s is the log's part from there, and the image is read in it.
fn take_from(s: &[u8], at: usize, n: usize) -> Option<Record>
    requires { (take_head ≤ n) × (n ≤ length s.now) × (at + n < word * word) }
    ensures { result ≡ take_from s.now at n }
{
    let image = format_image_reader::image_ok(&s[constants::TAKE_HEAD..n]);
    let place = Span {
        from: at + constants::TAKE_HEAD,
        len: n - constants::TAKE_HEAD,
    };
    let ok = format_numbers::zeros3_at(s, constants::TAKE_ZEROS) & image;
    ok.then_some(Record::Took(place))
}

fn release_from(s: &[u8]) -> Option<Record>
    requires { release_size ≤ length s.now }
    ensures { result ≡ release_from s.now }
{
    let release = release_at(s);
    let ok = format_numbers::zero_at(s, constants::RELEASE_ZERO)
        & (format_numbers::zero_at(s, constants::RELEASE_SECOND_ZERO) & release_ok(release));
    ok.then_some(Record::Released(release))
}

// The whole record of n bytes at the front of s, the log's part from a place.
fn record_from(s: &[u8], at: usize, n: usize) -> Option<Record>
    requires { (extent_of s.now ≡ spans n) × (at + n < word * word) }
    ensures { result ≡ record_from s.now at n }
{
    match s[0] {
        constants::FIRST_EXECUTED_KIND => executed_from(s, false),
        constants::GONE_KIND => gone_from(s),
        constants::GIVE_KIND => give_from(s),
        constants::TAKE_KIND => take_from(s, at, n),
        constants::RELEASE_KIND => release_from(s),
        constants::EXECUTED_KIND => executed_from(s, true),
        0 | 7..=255 => None,
    }
}

// The whole record of n bytes at a place of the log.
pub fn record_at(log: &[u8], at: usize, n: usize) -> Option<Record>
    requires { extent_from log.now at ≡ spans n }
    ensures { Parsed log.now at n result }
{
    record_from(&log[at..], at, n)
}
