// Decimal numbers.
ghost use Rattle.std.specs.Prelude.{◌≡◌, ◌≤◌, length};
ghost use Rattle.lines.specs.Numbers.{digit_of, leading_zero, number_of, decimal_of};
ghost use Rattle.lines.specs.Written.{Prints};

use crate::output;

fn digit(b: u8) -> Option<u64>
    ensures { result ≡ digit_of b }
{
    match b {
        b'0'..=b'9' => Some(u64::from(b - b'0')),
        _ => None,
    }
}

fn leading_zero(field: &[u8]) -> bool
    ensures { result ≡ leading_zero field.now }
{
    matches!(field, [b'0', _, ..])
}

// A number of at most `most`, in its one spelling.
pub fn number_of(field: &[u8], most: u32) -> Option<u32>
    ensures { result ≡ number_of field.now most }
{
    if field.is_empty() || leading_zero(field) {
        return None;
    }
    let mut value = 0;
    for b in field {
        let d = digit(*b)?;
        if u64::from(most) < 10 * value + d {
            return None;
        }
        value = 10 * value + d;
    }
    Some(value as u32)
}

// The digits of a number at the start of a buffer; answers how many there are.
pub(crate) fn put_decimal(n: u64, out: &mut [u8]) -> usize
    requires { 20 ≤ length out.old }
    ensures prints { Prints (decimal_of n) out.old out.new result }
    ensures within { result ≤ 20 }
{
    let mut digits = itoa::Buffer::new();
    let text = digits.format(n).as_bytes();
    output::copy(text, out)
}
