// Release: by a receipt, a given point is released. It answers and leaves its lent slices as its definition says, for
// all arguments.
ghost use Rattle.std.specs.Prelude.{◌≡◌, ◌+◌, ◌≤◌, [], length, Ok, Some};
ghost use Rattle.model.specs.Choice.{append};
ghost use Rattle.model.specs.Limits.{last_point, release_size};
ghost use Rattle.model.specs.Logs.{released};
ghost use Rattle.model.specs.States.{load};
ghost use Rattle.model.specs.Decisions.{decide_release, on_release};
ghost use Rattle.model.specs.Operations.{after, settle, release_of};
ghost use Rattle.refusals.specs.Numbers.{answered};
ghost use Rattle.state_rows.specs.Canonical.{Canonical};
ghost use Rattle.server_memory.specs.Memory.{settled_by};
ghost use Rattle.server_moves.specs.Numbers.{release_for, Placed};

use model::{Packet, Receipt, Release, constants};
use refusals::Refusal;
use state_rows::state;

// A release that is not refused. Like `give_done` on another record: a trait over both records is no plainer.
fn release_done(s: &mut [u8], log: &mut [u8], point: u8)
    requires { Canonical s.old × (point ≤ last_point) × ((load s.old).size + release_size ≤ length log.old) }
    ensures { after (answered (Ok 0)) s.new log.new []
        ≡ settle s.old log.old []
        (append (released (release_for (load s.old) point))) }
{
    let size = state::size_of(s);
    let x = state::point_at(s, point);
    let release = Release {
        point,
        move_number: x.move_number,
    };
    format_log_writer::append(log, size as usize, release);
    server_apply::apply_released(s, release, size + constants::RELEASE_SIZE_U64);
}

// By a receipt: 3 the point is not given, or no longer; 12 a receipt of an earlier move; 9; else the point is released.
fn release_by(s: &mut [u8], log: &mut [u8], receipt: Receipt) -> Result<u32, Refusal>
    requires { Canonical s.old × ((load s.old).size ≤ length log.old) × (receipt.point ≤ last_point) }
    ensures { after (answered result) s.new log.new []
        ≡ settled_by (λ st free. decide_release st free receipt.point receipt.move_number) s.old
        log.old [] }
{
    let x = state::point_at(s, receipt.point);
    let free = server_memory::free_in(s, log);
    server_decide::release_refusal(x, free, receipt.move_number)?;
    release_done(s, log, receipt.point);
    Ok(0)
}

// By a packet: 1 not a receipt.
fn release_on(s: &mut [u8], log: &mut [u8], packet: Packet) -> Result<u32, Refusal>
    requires { Canonical s.old × ((load s.old).size ≤ length log.old) × Placed packet }
    ensures { after (answered result) s.new log.new []
        ≡ settled_by (λ st free. on_release st free (Some packet)) s.old log.old [] }
{
    let Packet::Receipted(receipt) = packet else {
        return Err(Refusal::Malformed);
    };
    release_by(s, log, receipt)
}

// 2; 19; 1; 3, 12, 9 by `release_by`; else the point is released.
pub fn release(s: &mut [u8], log: &mut [u8], packet: &[u8]) -> Result<u32, Refusal>
    ensures { after (answered result) s.new log.new []
        ≡ release_of s.old log.old packet.now }
{
    server_memory::lent_refusal(s, log, 0, 0)?;
    let Some(parsed) = format_packet_reader::parse_packet(packet) else {
        return Err(Refusal::Malformed);
    };
    release_on(s, log, parsed)
}
