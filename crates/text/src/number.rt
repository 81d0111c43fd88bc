// A number of a text.
ghost use Rattle.std.specs.Prelude.{◌≡◌, ◌≤◌, length};
ghost use Rattle.text.specs.Scanning.{Digit, NumberRead};

// A number's value with its bytes.
#[derive(Clone, Copy, Debug, PartialEq, Eq, Drop)]
pub struct Number {
    pub value: u16,
    pub bytes: usize,
}

// The digit at an offset, if one stands there.
#[tactic(auto, unfolding(crate::specs::Scanning::digit_at))]
fn digit_at(text: &[u8], at: usize) -> Option<u16>
    ensures { Digit text.now at result }
{
    if at < text.len() && text[at].is_ascii_digit() {
        return Some((text[at] - b'0') as u16);
    }
    None
}

// A fourth digit, or a second one behind a 0, makes the whole run no number.
pub fn number_at(text: &[u8], at: usize) -> Option<Number>
    requires { at ≤ length text.now }
    ensures { NumberRead text.now at result }
{
    let a = digit_at(text, at)?;
    let Some(b) = digit_at(text, at + 1) else {
        return Some(Number { value: a, bytes: 1 });
    };
    if a == 0 {
        return None;
    }
    let Some(c) = digit_at(text, at + 2) else {
        return Some(Number {
            value: 10 * a + b,
            bytes: 2,
        });
    };
    match digit_at(text, at + 3) {
        Some(_) => None,
        None => Some(Number {
            value: 100 * a + 10 * b + c,
            bytes: 3,
        }),
    }
}
