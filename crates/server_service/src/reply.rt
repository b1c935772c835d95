// A held result as its packet, the answer of a request and of a fetch.
ghost use Rattle.std.specs.Prelude.{◌≡◌, true, ◌≤◌, length};
ghost use Rattle.model.specs.Limits.{result_size};
ghost use Rattle.model.specs.Tables.{written};
ghost use Rattle.model.specs.Packets.{result_bytes};
ghost use Rattle.model.specs.Decisions.{result_of_record};

use model::{Completion, ResultPacket, constants};

// The result packet of a completion record.
fn result_of(completion: Completion) -> ResultPacket
    ensures { result ≡ result_of_record true completion }
{
    let result = completion.result;
    ResultPacket {
        client: completion.command.client,
        call: completion.command.call,
        point: completion.command.point,
        result,
        timed: true,
    }
}

// A held result: its packet, written to the output, and how many bytes it has.
pub fn reply(out: &mut [u8], completion: Completion) -> u32
    requires { result_size ≤ length out.old }
    ensures { (result ≡ result_size)
        × (out.new ≡ written out.old 0 (result_bytes (result_of_record true completion))) }
{
    format_packet_writer::write_result(out, result_of(completion));
    constants::RESULT_SIZE_U32
}
