// The first bytes of a file, and the lines that begin in them.
ghost use Rattle.std.specs.Prelude.{◌≡◌, ◌≤◌, length, take};
ghost use Rattle.ctfile.specs.Lines.{lines_of};

use lines::NEWLINE;

pub fn front(bytes: &[u8], most: usize) -> &[u8]
    ensures { result.now ≡ take most bytes.now }
{
    &bytes[..most.min(bytes.len())]
}

// How many lines begin in a file.
pub fn lines_in(file: &[u8]) -> usize
    ensures { (result ≡ length (lines_of file.now)) × (result ≤ length file.now) }
{
    let mut lines = 0;
    let mut begins = true;
    for b in file {
        lines += usize::from(begins);
        begins = *b == NEWLINE;
    }
    lines
}
