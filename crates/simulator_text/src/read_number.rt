// A number of a schedule's line: decimal digits of 32 bits, or an argument with its sign.
ghost use Rattle.std.specs.Prelude.{◌≡◌, ◌+◌, ◌-◌, ◌*◌, ◌≤◌};
ghost use Rattle.model.specs.Limits.{last32};
ghost use Rattle.model.specs.Letters.{first_digit, last_digit};
ghost use Rattle.model.specs.Simulator.{is_digit, number_in, argument_in, negative, positive};
ghost use Rattle.simulator_text.specs.Values.{number_is};

use model::constants;

#[tactic(auto, unfolding(model::specs::Simulator::is_digit))]
fn is_digit(b: u8) -> bool
    ensures { result ≡ is_digit b }
{
    (b'0' <= b) & (b <= b'9')
}

// A number with one digit more.
fn with_digit(value: u64, b: u8) -> u64
    requires { (value ≤ last32) × (first_digit ≤ b) × (b ≤ last_digit) }
    ensures { result ≡ 10 * value + (b - first_digit) }
{
    10 * value + (b - b'0') as u64
}

// Decimal digits, at least one, of a number of 32 bits.
pub fn number_in(s: &[u8]) -> Option<u32>
    ensures { number_is result ≡ number_in s.now }
{
    if s.len() == 0 {
        return None;
    }
    let mut value: u64 = 0;
    for b in s {
        if !is_digit(*b) {
            return None;
        }
        value = with_digit(value, *b);
        if constants::LAST_32_U64 < value {
            return None;
        }
    }
    Some(value as u32)
}

#[tactic(auto, unfolding(model::specs::Simulator::negative))]
fn negative_of(number: Option<u32>) -> Option<u32>
    ensures { number_is result ≡ negative (number_is number) }
{
    constants::HALF.checked_sub(number?)
}

#[tactic(auto, unfolding(model::specs::Simulator::positive))]
fn positive_of(number: Option<u32>) -> Option<u32>
    ensures { number_is result ≡ positive (number_is number) }
{
    let n = number?;
    if n < constants::HALF {
        return Some(constants::HALF + n);
    }
    None
}

// A signed number, as x + 2^31.
pub fn argument_in(s: &[u8]) -> Option<u32>
    ensures { number_is result ≡ argument_in s.now }
{
    if s.len() == 0 {
        return None;
    }
    if s[0] == b'-' {
        return negative_of(number_in(&s[1..]));
    }
    positive_of(number_in(s))
}
