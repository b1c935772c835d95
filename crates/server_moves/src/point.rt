// The point that an image or a receipt is asked of.
ghost use Rattle.std.specs.Prelude.{◌≡◌};
ghost use Rattle.refusals.specs.Numbers.{refusal_of};
ghost use Rattle.server_moves.specs.Numbers.{place_number};

use model::constants;
use refusals::Refusal;

// Image and receipt ask it, and then differ in test, bytes and writer: one function over both is no plainer.
// 2; 19; 1. The output has n bytes, of which need are asked.
pub fn place_number(s: &[u8], log: &[u8], n: usize, need: usize, point: u32) -> Result<(), Refusal>
    ensures { refusal_of result ≡ place_number s.now log.now n need point }
{
    server_memory::lent_refusal(s, log, n, need)?;
    if constants::LAST_POINT_U32 < point {
        return Err(Refusal::Malformed);
    }
    Ok(())
}
