// The columns of a line, and what a field of them holds.
ghost use Rattle.std.specs.Prelude.{◌≡◌, ◌&&◌, ◌+◌, ◌<◌, ◌≤◌, get_or, length};
ghost use Rattle.sling.specs.Scanned.{is_digit};
ghost use Rattle.ctfile.specs.Fields.{are_blank, columns, decimal, unled, untrailed, is_sign, unsigned, size_in};
ghost use Rattle.ctfile.specs.Forms.{number_at};
ghost use Rattle.molfile.specs.Numbers.{IsNumber};

pub const BLANK: u8 = b' ';

// The byte in the column behind the first k. What is cut off is blank.
pub fn column(line: &[u8], k: usize) -> u8
    ensures { result ≡ get_or line.now k 32 }
{
    if k < line.len() { line[k] } else { BLANK }
}

// So many columns behind the first k.
pub fn columns<const N: usize>(line: &[u8], k: usize) -> [u8; N]
    requires { k + N < 2000 }
    ensures { result ≡ columns k N line.now }
{
    let mut field = [BLANK; N];
    for i in 0..N {
        field[i] = column(line, k + i);
    }
    field
}

pub fn are_blank(field: &[u8]) -> bool
    ensures { result ≡ are_blank field.now }
{
    field.iter().all(|b| *b == BLANK)
}

// A field without the blanks before what it holds.
pub fn unled(field: &[u8]) -> &[u8]
    ensures { result.now ≡ unled field.now }
{
    for (i, b) in field.iter().enumerate() {
        if *b != BLANK {
            return &field[i..];
        }
    }
    &[]
}

// A field without the blanks behind what it holds.
pub fn untrailed(field: &[u8]) -> &[u8]
    ensures { result.now ≡ untrailed field.now }
{
    for i in 0..field.len() {
        if are_blank(&field[i..]) {
            return &field[..i];
        }
    }
    field
}

// Whether a sign stands before a digit.
fn is_signed(sign: u8, digit: u8) -> bool
    ensures { result ≡ (is_sign sign && is_digit digit) }
{
    (sign == b'+' || sign == b'-') && digit.is_ascii_digit()
}

// A field without a sign that stands before a digit.
fn unsigned(field: &[u8]) -> &[u8]
    ensures { result.now ≡ unsigned field.now }
{
    match field {
        [sign, digit, ..] if is_signed(*sign, *digit) => &field[1..],
        _ => field,
    }
}

// Digits to the blanks behind them.
fn decimal(field: &[u8]) -> Option<u16>
    requires { length field.now ≤ 3 }
    ensures { IsNumber (decimal 0 field.now) result }
{
    let mut number: u16 = 0;
    for (i, b) in field.iter().enumerate() {
        if !b.is_ascii_digit() {
            return if are_blank(&field[i..]) {
                Some(number)
            } else {
                None
            };
        }
        number = 10 * number + (*b - b'0') as u16;
    }
    Some(number)
}

// A number in three columns behind the first k.
pub fn number_at(line: &[u8], k: usize) -> Option<u16>
    requires { k < 1000 }
    ensures { IsNumber (number_at k line.now) result }
{
    decimal(unled(&columns::<3>(line, k)))
}

// How far a number in two or three columns behind the first k, which may have a sign, is from 0.
pub fn size_at<const N: usize>(line: &[u8], k: usize) -> Option<u16>
    requires { (k < 1000) × (N ≤ 3) }
    ensures { IsNumber (size_in (columns k N line.now)) result }
{
    let field: [u8; N] = columns(line, k);
    decimal(unled(unsigned(unled(&field))))
}
