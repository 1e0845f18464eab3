//! Reading of the line of a machine, which is a place of an order.

ghost use Rattle.std.specs.Prelude.{◌≤◌, length};
ghost use Rattle.model_lines.specs.Reading.{line_limit};
ghost use Rattle.model_input.specs.Orders.{whole_number, two_digits, number_at, machine_at, judged_number};
ghost use Rattle.dump_text.specs.Reading.{Gives};
ghost use Rattle.dump_text.specs.InputLines.{line_is};

use crate::fault::LineFault;
use crate::pair::InputLine;

// The greatest number of a machine.
const LAST_MACHINE: u16 = 63;

/// Reads the machine that a line of an order names, or returns the line's first fault.
#[tactic(auto, unfolding(model_input::specs::Orders::machine_at))]
pub fn machine_of(line: &InputLine<'_>) -> Result<u16, LineFault>
    requires { length line.now.bytes.now ≤ line_limit }
    ensures { Gives (λ machine. machine) result
        (judged_number line.now.number (machine_at (line_is line.now) line.now.bytes.now)) }
{
    match line.bytes {
        [b'O', b' ', digits @ ..] => number_of(line, digits),
        [b'O', ..] => Err(line.bad_at(1)),
        _ => Err(line.bad_at(0)),
    }
}

// The number that the digits spell, without a leading zero.
fn number_of(line: &InputLine<'_>, digits: &[u8]) -> Result<u16, LineFault>
    requires { length line.now.bytes.now ≤ line_limit }
    ensures { Gives (λ machine. machine) result
        (judged_number line.now.number (number_at (line_is line.now) digits.now)) }
{
    match digits {
        [digit @ b'0'..=b'9'] => whole_number(line, u16::from(*digit - b'0')),
        [high @ b'1'..=b'9', low @ b'0'..=b'9', rest @ ..] => {
            let number = 10 * u16::from(*high - b'0') + u16::from(*low - b'0');
            two_digits(line, number, rest)
        }
        [b'0'..=b'9', ..] => Err(line.bad_at(3)),
        _ => Err(line.bad_at(2)),
    }
}

// A number of two digits, and what stands behind them: one that is too great, or has more digits, is a fault at its first
// byte.
fn two_digits(line: &InputLine<'_>, number: u16, rest: &[u8]) -> Result<u16, LineFault>
    requires { length line.now.bytes.now ≤ line_limit }
    ensures { Gives (λ machine. machine) result
        (judged_number line.now.number (two_digits (line_is line.now) number rest.now)) }
{
    match rest {
        _ if number > LAST_MACHINE => Err(line.bad_at(2)),
        [] => whole_number(line, number),
        [b'0'..=b'9', ..] => Err(line.bad_at(2)),
        _ => Err(line.bad_at(4)),
    }
}

// The number, where the line feed stands behind it.
fn whole_number(line: &InputLine<'_>, number: u16) -> Result<u16, LineFault>
    requires { length line.now.bytes.now ≤ line_limit }
    ensures { Gives (λ machine. machine) result
        (judged_number line.now.number (whole_number (line_is line.now) number)) }
{
    if !line.is_whole {
        return Err(line.bad_at(line.bytes.len()));
    }
    Ok(number)
}
