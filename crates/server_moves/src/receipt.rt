// Receipt: of the latest taken move of a point. It answers and leaves its lent slices as its definition says, for all
// arguments.
ghost use Rattle.std.specs.Prelude.{◌≡◌, ◌≤◌, length};
ghost use Rattle.model.specs.Limits.{last_point, receipt_size};
ghost use Rattle.model.specs.States.{load, state_end};
ghost use Rattle.model.specs.Operations.{after, receipt_of};
ghost use Rattle.refusals.specs.Numbers.{answered};
ghost use Rattle.server_memory.specs.Memory.{SettledBeside};
ghost use Rattle.server_moves.specs.Numbers.{receipt_decided};

use model::{Receipt, constants};
use refusals::Refusal;
use state_rows::state;

// Once these are passed: 3 never taken; 7 latest take not synced; else the receipt of the latest taken move.
fn receipt_made(s: &[u8], point: u8, out: &mut [u8]) -> Result<u32, Refusal>
    requires { (state_end ≤ length s.now) × (point ≤ last_point) × (receipt_size ≤ length out.old) }
    ensures { SettledBeside (receipt_decided (load s.now) point)
        s.now out.old (answered result) s.now out.new }
{
    let x = state::point_at(s, point);
    let mark = state::mark_of(s);
    server_decide::receipt_refusal(x, mark)?;
    let receipt = Receipt {
        point,
        server: state::server_of(s),
        move_number: x.taken_move,
    };
    format_packet_writer::write_receipt(out, receipt);
    Ok(constants::RECEIPT_SIZE_U32)
}

// 2; 19; 1; 3 never taken; 7 latest take not synced; else the receipt of the latest taken move.
pub fn receipt(s: &[u8], log: &[u8], point: u32, out: &mut [u8]) -> Result<u32, Refusal>
    ensures { after (answered result) s.now log.now out.new
        ≡ receipt_of s.now log.now point out.old }
{
    crate::point::place_number(s, log, out.len(), constants::RECEIPT_SIZE, point)?;
    receipt_made(s, point as u8, out)
}
