// A notice that a lease has ended: its client goes. It answers and leaves its lent slices as its definition says, for
// all arguments.
ghost use Rattle.std.specs.Prelude.{◌≡◌, [], ◌≤◌, length};
ghost use Rattle.model.specs.States.{load};
ghost use Rattle.model.specs.Decisions.{decide_notice};
ghost use Rattle.model.specs.Operations.{after, notice_of};
ghost use Rattle.refusals.specs.Numbers.{answered};
ghost use Rattle.state_rows.specs.Canonical.{Canonical};
ghost use Rattle.server_memory.specs.Memory.{settled_by};

use model::{Notice, Packet, constants};
use refusals::Refusal;
use state_rows::state;

// 17 client not known; 9; else the client is gone.
fn noticed(s: &mut [u8], log: &mut [u8], notice: Notice) -> Result<u32, Refusal>
    requires { Canonical s.old × ((load s.old).size ≤ length log.old) }
    ensures { after (answered result) s.new log.new []
        ≡ settled_by (λ st free. decide_notice st free notice) s.old log.old [] }
{
    let floor = state_clients::floor_in(s, notice.client);
    let free = server_memory::free_in(s, log);
    server_decide::notice_refusal(floor, free)?;
    let size = state::size_of(s);
    format_log_writer::append(log, size as usize, notice);
    server_apply::apply_gone(s, notice, size + constants::GONE_SIZE_U64);
    Ok(0)
}

// 2; 19; 1 malformed or no notice; 17; 9.
pub fn notice(s: &mut [u8], log: &mut [u8], packet: &[u8]) -> Result<u32, Refusal>
    ensures { after (answered result) s.new log.new []
        ≡ notice_of s.old log.old packet.now }
{
    server_memory::lent_refusal(s, log, 0, 0)?;
    let Some(parsed) = format_packet_reader::parse_packet(packet) else {
        return Err(Refusal::Malformed);
    };
    let Packet::Noticed(told) = parsed else {
        return Err(Refusal::Malformed);
    };
    noticed(s, log, told)
}
