// The fields of a line.
ghost use Rattle.std.specs.Prelude.{◌≡◌, ◌==◌, position};
ghost use Rattle.lines.specs.Fields.{field_of, rest_of, same_bytes};

use crate::BLANK;

// Where a byte stands first.
pub(crate) fn find(bytes: &[u8], b: u8) -> Option<usize>
    ensures { result ≡ position (λ x. x == b) bytes.now }
{
    bytes.iter().position(|x| *x == b)
}

// What stands before the first blank.
pub fn field(line: &[u8]) -> &[u8]
    ensures { result.now ≡ field_of line.now }
{
    match find(line, BLANK) {
        Some(end) => &line[..end],
        None => line,
    }
}

// What stands behind it.
pub fn rest(line: &[u8]) -> &[u8]
    ensures { result.now ≡ rest_of line.now }
{
    let Some(blank) = find(line, BLANK) else {
        return &[];
    };
    &line[blank + 1..]
}

pub fn is_word(field: &[u8], word: &[u8]) -> bool
    ensures { result ≡ same_bytes field.now word.now }
{
    field == word
}
