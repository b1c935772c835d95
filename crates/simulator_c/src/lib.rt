// The simulator for C: a schedule's text in, the answers' text out, and one word of 64 bits: the low 32 bits are 0 or
// the refusal's number, the high 32 bits the number of bytes written.
#![tactic(auto)]

ghost use Rattle.std.specs.Prelude.{◌≡◌};
ghost use Rattle.model.specs.Operations.{word_of};
ghost use Rattle.simulator.specs.Run.{simulate_of};
ghost use Rattle.simulator_c.specs.Interface.{returned, in_c};

use model::{Answer, constants};

// As in kernel: one function for both C libraries would stand in `refusals`, below every crate of the server.
fn word_of(answer: Answer) -> u64
    ensures { result ≡ word_of answer }
{
    answer.refusal as u64 + constants::WORD * (answer.wrote as u64)
}

// 2 where the output is too short for the answers, and it is kept; 2,700 bytes always suffice.
#[unsafe(no_mangle)]
pub extern "C" fn mantelorris_yard(text: &[u8], out: &mut [u8]) -> u64
    ensures { returned result out.new ≡ in_c (simulate_of text.now out.old) }
{
    word_of(refusals::answer(simulator::simulate(text, out)))
}
