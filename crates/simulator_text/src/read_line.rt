// A line of a schedule, read: its letter, the numbers of the fields behind it, and the line that both say.
ghost use Rattle.std.specs.Prelude.{◌≡◌, ◌≤◌, [], length, IfSome};
ghost use Rattle.model.specs.Simulator.{letter_in, letter_line, line_by, field_in, numbers_from, fields_from, line_of};
ghost use Rattle.simulator_text.specs.Values.{most_numbers, number_is, numbers_is, line_is};

use crate::{ClientLine, Line, ServerLine};

// The numbers of a line at the most: three, and an argument behind them.
const NUMBERS: usize = 4;

// The byte of a field of one byte, else 0.
fn letter_in(field: &[u8]) -> u8
    ensures { result ≡ letter_in field.now }
{
    if field.len() == 1 {
        return field[0];
    }
    0
}

// ---- numbers

// Field k of those behind the letter.
#[tactic(auto, unfolding(model::specs::Simulator::field_in))]
fn field_in(k: usize, s: &[u8]) -> Option<u32>
    ensures { number_is result ≡ field_in k s.now }
{
    if k < 3 {
        return crate::read_number::number_in(s);
    }
    if k == 3 {
        return crate::read_number::argument_in(s);
    }
    None
}

// The numbers of the fields of s, and how many they are; none where one cannot be read, or there are too many.
fn numbers_in(s: &[u8], ns: &mut [u32]) -> Option<usize>
    requires { length ns.old ≡ most_numbers }
    ensures within { IfSome result (λ n. n ≤ most_numbers) }
    ensures read { numbers_is result ns.new ≡ numbers_from 0 (fields_from [] s.now) }
{
    let mut k = 0;
    for field in s.split(|b| *b == b' ') {
        ns[k] = field_in(k, field)?;
        k += 1;
    }
    Some(k)
}

// ---- by letter

// The lines of two numbers, by letter.
#[tactic(auto, unfolding(model::specs::Simulator::letter_line))]
fn by_letter(letter: u8, first: u32, second: u32) -> Option<Line>
    ensures { line_is result ≡ letter_line letter first second }
{
    match letter {
        b's' => Some(Line::AtClient(first, ClientLine::Resend(second))),
        b'd' => Some(Line::AtServer(second, ServerLine::Deliver(first))),
        b'r' => Some(Line::AtClient(second, ClientLine::Receive(first))),
        b'k' => Some(Line::AtServer(first, ServerLine::Cut(second))),
        b'x' => Some(Line::AtServer(first, ServerLine::Image(second))),
        b'f' => Some(Line::AtServer(first, ServerLine::Receipt(second))),
        _ => None,
    }
}

// The line of a letter and the numbers behind it.
#[tactic(auto, using(crate::proofs::Lines::lines_by))]
fn line_by(letter: u8, ns: &[u32]) -> Option<Line>
    ensures { line_is result ≡ line_by letter ns.now }
{
    match ns {
        [n] if letter == b'y' => Some(Line::AtServer(*n, ServerLine::Sync)),
        [first, second] => by_letter(letter, *first, *second),
        [n, point, destination] if letter == b'g' => {
            Some(Line::AtServer(*n, ServerLine::Give(*point, *destination)))
        }
        [n, op, point, argument] if letter == b'i' => {
            Some(Line::AtClient(*n, ClientLine::Issue(*op, *point, *argument)))
        }
        _ => None,
    }
}

// The line that a text says, without its line feed; none where it says none.
pub fn line_of(s: &[u8]) -> Option<Line>
    ensures { line_is result ≡ line_of s.now }
{
    let end = crate::find(s, b' ');
    if end < s.len() {
        let letter = letter_in(&s[..end]);
        let mut ns = [0u32; NUMBERS];
        let n = numbers_in(&s[end + 1..], &mut ns)?;
        return line_by(letter, &ns[..n]);
    }
    None
}
