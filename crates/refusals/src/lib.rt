// The answer of a call, by what it came to: the bytes written, or why it is refused.
#![tactic(auto)]

ghost use Rattle.std.specs.Prelude.{◌≡◌};
ghost use Rattle.refusals.specs.Numbers.{answered, request_answered, denied};

pub use model::Refusal;
use model::{Answer, constants};

// A request that is refused: with a packet of so many bytes.
#[derive(Clone, Copy)]
pub struct Denied {
    pub refusal: Refusal,
    pub wrote: u32,
}

// Refused before its packet is known: none is made.
impl From<Refusal> for Denied {
    ghost from_gives = { λ refusal d. d ≡ denied refusal 0 };

    fn from(refusal: Refusal) -> Denied {
        Denied { refusal, wrote: 0 }
    }
}

// The bytes written, or the refusal's number and no packet.
pub fn answer(outcome: Result<u32, Refusal>) -> Answer
    ensures { result ≡ answered outcome }
{
    match outcome {
        Ok(wrote) => Answer {
            refusal: constants::NO_REFUSAL,
            wrote,
        },
        Err(refusal) => Answer {
            refusal: refusal.number(),
            wrote: 0,
        },
    }
}

// The bytes written, or the refusal's number and its packet's length.
pub fn request_answer(outcome: Result<u32, Denied>) -> Answer
    ensures { result ≡ request_answered outcome }
{
    match outcome {
        Ok(wrote) => Answer {
            refusal: constants::NO_REFUSAL,
            wrote,
        },
        Err(d) => Answer {
            refusal: d.refusal.number(),
            wrote: d.wrote,
        },
    }
}
