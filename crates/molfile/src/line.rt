// The lines of a file.
ghost use Rattle.std.specs.Prelude.{◌≡◌, ◌+◌, ◌≤◌, ◌<◌, eqb, length, drop, position};
ghost use Rattle.molfile.specs.Cutting.{line_feed, IsLine};

// The bytes of a line without its end, and the offset of the next line.
#[derive(Clone, Copy, Drop)]
pub struct Line<'a> {
    pub bytes: &'a [u8],
    pub next: usize,
}

const LF: u8 = b'\n';

const CR: u8 = b'\r';

// Where the first LF stands.
fn feed_in(bytes: &[u8]) -> Option<usize>
    ensures { result ≡ position (λ b. eqb b 10) bytes.now }
{
    bytes.iter().position(|b| *b == LF)
}

// The offset of the first LF from an offset on, or the file's length.
fn line_feed(file: &[u8], at: usize) -> usize
    requires { at ≤ length file.now }
    ensures { result ≡ at + line_feed (drop at file.now) }
{
    match feed_in(&file[at..]) {
        Some(p) => at + p,
        None => file.len(),
    }
}

// The line that begins at an offset.
pub fn line_at(file: &[u8], at: usize) -> Line<'_>
    requires { at < length file.now }
    ensures { IsLine file.now at result }
{
    let feed = line_feed(file, at);
    if file.len() <= feed {
        return Line {
            bytes: &file[at..],
            next: file.len(),
        };
    }
    if at < feed && file[feed - 1] == CR {
        return Line {
            bytes: &file[at..feed - 1],
            next: feed + 1,
        };
    }
    Line {
        bytes: &file[at..feed],
        next: feed + 1,
    }
}
