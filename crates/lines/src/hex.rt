// Bytes in hexadecimal.
ghost use Rattle.std.specs.Prelude.{true, ◌≡◌, ◌*◌, ◌/◌, ◌≤◌, ◌<◌, length, is_some};
ghost use Rattle.std.specs.List.{list_all};
ghost use Rattle.lines.specs.Hex.{hex_value, is_hex, bytes_of, glyph, hex_at, hex_of};
ghost use Rattle.lines.specs.Written.{Prints};

// The value of a digit.
#[tactic(auto, unfolding(crate::specs::Hex::hex_digit_of))]
fn hex_digit(b: u8) -> Option<u8>
    ensures { result ≡ hex_value b }
{
    match b {
        b'0'..=b'9' => Some(b - b'0'),
        b'a'..=b'f' => Some(b - b'a' + 10),
        b'A'..=b'F' => Some(b - b'A' + 10),
        _ => None,
    }
}

fn all_digits(field: &[u8]) -> bool
    ensures { result ≡ list_all (λ b. is_some (hex_value b)) field.now }
{
    field.iter().all(|b| hex_digit(*b).is_some())
}

// Whether a field is a whole number of bytes in hexadecimal.
pub fn is_hex(field: &[u8]) -> bool
    ensures { result ≡ is_hex field.now }
{
    field.len() % 2 == 0 && all_digits(field)
}

// The bytes of a field in hexadecimal, at the start of a buffer; answers how many there are.
pub fn read_bytes(field: &[u8], out: &mut [u8]) -> usize
    requires { (is_hex field.now ≡ true) × (length field.now / 2 ≤ length out.old) }
    ensures { Prints (bytes_of field.now) out.old out.new result }
{
    let n = field.len() / 2;
    for i in 0..n {
        let high = hex_digit(field[2 * i]).unwrap();
        let low = hex_digit(field[2 * i + 1]).unwrap();
        out[i] = 16 * high + low;
    }
    n
}

fn glyph(d: u8) -> u8
    requires { d < 16 }
    ensures { result ≡ glyph d }
{
    match d {
        0..=9 => b'0' + d,
        _ => b'a' + (d - 10),
    }
}

// The digit at k of the bytes in hexadecimal.
fn hex_at(bytes: &[u8], k: usize) -> u8
    requires { k < 2 * length bytes.now }
    ensures { result ≡ hex_at bytes.now k }
{
    let b = bytes[k / 2];
    glyph(if k % 2 == 0 { b / 16 } else { b % 16 })
}

// Bytes in hexadecimal, small letters, at the start of a buffer; answers how many digits there are.
pub(crate) fn put_hex(bytes: &[u8], out: &mut [u8]) -> usize
    requires { 2 * length bytes.now ≤ length out.old }
    ensures prints { Prints (hex_of bytes.now) out.old out.new result }
    ensures within { result ≡ 2 * length bytes.now }
{
    let n = 2 * bytes.len();
    for k in 0..n {
        out[k] = hex_at(bytes, k);
    }
    n
}
