// The log's head and its records as they are written: a record behind the log's last one.
#![tactic(auto)]

ghost use Rattle.std.specs.Prelude.{ℕ, ◌≡◌, ◌+◌, ◌≤◌, true, length};
ghost use Rattle.model.specs.Tables.{written};
ghost use Rattle.model.specs.Images.{image_head_of, image_at, image_ok};
ghost use Rattle.model.specs.Logs.{LogRecord, head_bytes, executed, gone, gave, took, released, record_bytes};
ghost use Rattle.model.specs.Limits.{head_size, executed_size, gone_size, give_size, release_size, take_head};
ghost use Rattle.format_log_writer.specs.Fronts.{take_front};

use model::constants::LOG_MAGIC;
use model::{Executed, Give, Notice, Release, constants};

// ---- into a lent part

pub fn write_head(log: &mut [u8], server: u8)
    requires { head_size ≤ length log.old }
    ensures { log.new ≡ written log.old 0 (head_bytes server) }
{
    format_numbers::write_magic(log, LOG_MAGIC);
    format_numbers::write_4(log, constants::HEAD_SERVER, server, 0, 0, 0);
}

// What stands for a record of the log: how its bytes are written.
pub trait Logged {
    ghost log_record: { Self → LogRecord };

    ghost size: { Self → ℕ };

    // Which values may be written.
    ghost can_write: { Self → Type 0 } = { λ _. Unit {0} };

    fn write(self, out: &mut [u8])
        requires { can_write self × (size self ≤ length out.old) }
        ensures { out.new ≡ written out.old 0 (record_bytes (log_record self)) };
}

// In the form with a time, the only one that is written.
impl Logged for Executed {
    ghost log_record = { executed };

    ghost size = { λ _. executed_size };

    ghost can_write = { λ x. x.timed ≡ true };

    fn write(self, out: &mut [u8]) {
        format_numbers::write_4(
            out,
            0,
            constants::EXECUTED_KIND,
            self.command.op,
            self.command.point,
            self.result.outcome,
        );
        format_numbers::write_u32(out, constants::EXECUTED_CLIENT, self.command.client);
        format_numbers::write_u32(out, constants::EXECUTED_CALL, self.command.call);
        format_numbers::write_u32(out, constants::EXECUTED_DONE, self.done);
        format_numbers::write_signed(out, constants::EXECUTED_ARGUMENT, self.command.argument);
        format_numbers::write_signed(out, constants::EXECUTED_VALUE, self.result.value);
        format_numbers::write_4(
            out,
            constants::EXECUTED_QUALITY,
            self.result.quality,
            0,
            0,
            0,
        );
        format_numbers::write_u32(out, constants::EXECUTED_TIME, self.result.time);
    }
}

impl Logged for Notice {
    ghost log_record = { gone };

    ghost size = { λ _. gone_size };

    fn write(self, out: &mut [u8]) {
        format_packet_writer::write_notice(out, constants::GONE_KIND, self);
    }
}

impl Logged for Give {
    ghost log_record = { gave };

    ghost size = { λ _. give_size };

    fn write(self, out: &mut [u8]) {
        format_numbers::write_4(
            out,
            0,
            constants::GIVE_KIND,
            self.point,
            self.destination,
            0,
        );
        format_numbers::write_u32(out, constants::GIVE_MOVE, self.move_number);
    }
}

impl Logged for Release {
    ghost log_record = { released };

    ghost size = { λ _. release_size };

    fn write(self, out: &mut [u8]) {
        format_numbers::write_4(out, 0, constants::RELEASE_KIND, self.point, 0, 0);
        format_numbers::write_u32(out, constants::RELEASE_MOVE, self.move_number);
    }
}

// A take record's bytes before its image of this size.
fn write_take_front(out: &mut [u8], size: u32)
    requires { take_head ≤ length out.old }
    ensures { out.new ≡ written out.old 0 (take_front size) }
{
    format_numbers::write_4(out, 0, constants::TAKE_KIND, 0, 0, 0);
    format_numbers::write_u32(out, constants::TAKE_LENGTH, size);
}

fn write_take(out: &mut [u8], image: &[u8])
    requires { (image_ok image.now ≡ true) × (take_head + length image.now ≤ length out.old) }
    ensures { out.new
        ≡ written out.old 0
        (record_bytes (took (image_at (image_head_of image.now) image.now))) }
{
    write_take_front(out, image.len() as u32);
    format_numbers::copy_bytes(&mut out[constants::TAKE_HEAD..], image);
}

// A take of a well-formed image.
#[derive(Clone, Copy)]
pub struct Take<'a> {
    pub image: &'a [u8],
}

impl<'a> Logged for Take<'a> {
    ghost log_record = { λ t. took (image_at (image_head_of t.image.now) t.image.now) };

    ghost size = { λ t. take_head + length t.image.now };

    ghost can_write = { λ t. image_ok t.image.now ≡ true };

    fn write(self, out: &mut [u8]) {
        write_take(out, self.image);
    }
}

// ---- appending: a record's writer is lent the log from its length on

pub fn append<R: Logged>(log: &mut [u8], at: usize, item: R)
    requires { R.can_write item × (at + R.size item ≤ length log.old) }
    ensures { log.new ≡ written log.old at (record_bytes (R.log_record item)) }
{
    item.write(&mut log[at..]);
}
