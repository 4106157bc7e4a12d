// The step that one line of a script stands for: document 01, "The script program". A line comes without the LF that
// ends it.
#![tactic(auto)]

ghost use Rattle.std.specs.Prelude.{◌≡◌, ◌≤◌, length};
ghost use Rattle.line.specs.Forms.{step_of_line};
ghost use Rattle.line.specs.Numbers.{digit_of, number_of};

use semantics::Step;

// The value of an upper-case hex digit, where the base has it.
#[tactic(auto, unfolding(crate::specs::Forms::hex_value))]
fn digit(base: u8, b: u8) -> Option<u8>
    requires { base ≤ 16 }
    ensures { result ≡ digit_of base b }
{
    let value = match b {
        b'0'..=b'9' => b - b'0',
        b'A'..=b'F' => b - b'A' + 10,
        _ => return None,
    };
    (value < base).then_some(value)
}

// The number that the digits of a base make, the highest first.
fn number(base: u8, digits: &[u8]) -> Option<u32>
    requires base { base ≤ 16 }
    requires few { length digits.now ≤ 6 }
    ensures { result ≡ number_of base digits.now }
{
    let mut made = 0;
    for b in digits {
        made = made * u32::from(base) + u32::from(digit(base, *b)?);
    }
    Some(made)
}

// The step of the line, or None where the line has none of the forms.
#[tactic(auto, unfolding(crate::specs::Forms::step_of_line, crate::specs::Forms::begins, crate::specs::Forms::is_read, crate::specs::Forms::is_write, crate::specs::Forms::is_work, crate::specs::Forms::is_supply, crate::specs::Forms::is_reset))]
pub fn step_of_line(line: &[u8]) -> Option<Step>
    ensures { result ≡ step_of_line line.now }
{
    match line {
        [b'R', b' ', address @ ..] if address.len() == 6 => number(16, address).map(Step::Read),
        [b'W', b' ', address @ .., b' ', _, _, _, _] if address.len() == 6 => {
            let address = number(16, address)?;
            Some(Step::Write(address, number(16, &line[9..])? as u16))
        }
        // A zero stands first only where it is the one digit.
        [b'K', b' ', b'0', _, ..] => None,
        [b'K', b' ', _, ..] if line.len() <= 7 => number(10, &line[2..]).map(Step::Work),
        [b'V', b' ', b'0'] => Some(Step::Supply(false)),
        [b'V', b' ', b'1'] => Some(Step::Supply(true)),
        [b'Z'] => Some(Step::Reset),
        _ => None,
    }
}
