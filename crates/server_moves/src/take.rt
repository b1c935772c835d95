// The call that takes a point: take.
ghost use Rattle.std.specs.Prelude.{◌≡◌, [], Ok};
ghost use Rattle.model.specs.Choice.{append};
ghost use Rattle.model.specs.Plan.{entry_at};
ghost use Rattle.model.specs.Images.{image_at, image_in_range};
ghost use Rattle.model.specs.Logs.{took};
ghost use Rattle.model.specs.States.{load};
ghost use Rattle.model.specs.Decisions.{take_tests, decide_take};
ghost use Rattle.model.specs.Operations.{after, settle, free_in, take_of};
ghost use Rattle.refusals.specs.Numbers.{refusal_of, answered};
ghost use Rattle.server_memory.specs.Memory.{settled_by};
ghost use Rattle.server_moves.specs.Taking.{Taking};

use format_log_writer::Take;
use model::{ImageHead, constants};
use refusals::Refusal;
use state_records::ids;
use state_rows::state;

// ---- the tests

// The values are in the point's range.
fn is_ranged(s: &[u8], log: &[u8], image: &[u8], h: ImageHead) -> bool
    requires { Taking s.now log.now image.now h }
    ensures { result ≡ image_in_range (entry_at (load s.now).plan h.point)
        (image_at h image.now) }
{
    let e = state::entry_at(s, h.point);
    format_image_reader::values_in_range(image, h, e)
}

// Take's tests on a well-formed image: 1 a value out of range; 11 for another server; 12 no later move; 13 held here,
// or an id that is here for another point; 8 too many clients; 9.
fn take_number(s: &[u8], log: &[u8], image: &[u8], h: ImageHead) -> Result<(), Refusal>
    requires { Taking s.now log.now image.now h }
    ensures { refusal_of result ≡ take_tests (load s.now) (free_in s.now log.now)
        (image_at h image.now) }
{
    let ranged = is_ranged(s, log, image, h);
    let unheld = ids::ids_free(s, image, h);
    let merged = state_clients::merged_count(s, image, h.floors as usize);
    let x = state::point_at(s, h.point);
    let server = state::server_of(s);
    let free = server_memory::free_in(s, log);
    server_decide::take_refusal(
        x,
        server,
        h.destination,
        h.move_number,
        ranged,
        unheld,
        merged,
        free,
        constants::TAKE_HEAD + image.len(),
    )
}

// ---- take

// A take that is not refused.
fn take_done(s: &mut [u8], log: &mut [u8], image: &[u8], h: ImageHead)
    requires { Taking s.old log.old image.now h
        × (decide_take (load s.old) (free_in s.old log.old) (image_at h image.now)
        ≡ append (took (image_at h image.now))) }
    ensures { after (answered (Ok 0)) s.new log.new []
        ≡ settle s.old log.old [] (append (took (image_at h image.now))) }
{
    let size = state::size_of(s);
    format_log_writer::append(log, size as usize, Take { image });
    let end = size + constants::TAKE_HEAD_U64 + image.len() as u64;
    server_apply::took::apply_took(s, image, h, end);
}

// Of a well-formed image.
fn take_by(s: &mut [u8], log: &mut [u8], image: &[u8], h: ImageHead) -> Result<u32, Refusal>
    requires { Taking s.old log.old image.now h }
    ensures { after (answered result) s.new log.new []
        ≡ settled_by (λ st free. decide_take st free (image_at h image.now)) s.old log.old
        [] }
{
    take_number(s, log, image, h)?;
    take_done(s, log, image, h);
    Ok(0)
}

// 2; 19; 1; 11, 12, 13, 8, 9 by `take_number`; else the point is taken.
pub fn take(s: &mut [u8], log: &mut [u8], image: &[u8]) -> Result<u32, Refusal>
    ensures { after (answered result) s.new log.new []
        ≡ take_of s.old log.old image.now }
{
    server_memory::lent_refusal(s, log, 0, 0)?;
    let h = format_image_reader::image_read(image).ok_or(Refusal::Malformed)?;
    take_by(s, log, image, h)
}
