// Lines of an input, read in large pieces.
ghost use Rattle.std.specs.Prelude.{◌≡◌, ◌≤◌, length, IfSome, IfOk, OnErr};
ghost use Rattle.lines.specs.Gathered.{Appends};

use crate::{NEWLINE, field};
use std::io;
use std::io::Read;

// A reader, what was read of it, and which part of that was not handed out yet. A caller may begin with bytes that it has
// read itself, and go on with those that are left.
#[derive(Drop)]
pub struct Lines<'r, R> {
    pub reader: &'r mut R,
    pub buffer: &'r mut [u8],
    pub at: usize,
    pub end: usize,
    pub ghost inside: { (at ≤ end) × (end ≤ length buffer.now) },
}

// A line: how many of its bytes there are, and whether a newline ended it. A count and no slice, since a record's newline
// is put behind it in the same buffer.
#[derive(Clone, Copy, Drop)]
pub struct Line {
    pub length: usize,
    pub ended: bool,
}

// How much of the input is read at once.
pub const PIECE: usize = 65536;

// The bound of each loop over the input: a proved loop has to end, and nothing says that the input does.
pub const MOST_TURNS: u64 = 1 << 63;

// A piece of a line behind what is held of it, as far as there is room.
fn append(line: &mut [u8], held: usize, piece: &[u8]) -> usize
    requires { held ≤ length line.old }
    ensures { Appends line.old held piece.now line.new result }
{
    let n = piece.len().min(line.len() - held);
    let next = held + n;
    line[held..next].copy_from_slice(&piece[..n]);
    next
}

impl<'r, R: Read> Lines<'r, R> {
    pub fn new(reader: &'r mut R, buffer: &'r mut [u8]) -> Lines<'r, R>
        ensures nothing { (result.at ≡ 0) × (result.end ≡ 0) }
        ensures lent { (result.buffer.now ≡ buffer.entry.now) × (result.buffer.ghost_name ≡ buffer.entry.ghost_name) }
    {
        Lines {
            reader,
            buffer,
            at: 0,
            end: 0,
        }
    }

    // The next piece of the input where all is handed out: nothing where the input has ended.
    fn fill(&mut self) -> io::Result<()>
        ensures kept { length self.new.buffer.now ≡ length self.old.buffer.now }
        ensures same { self.new.buffer.ghost_name ≡ self.old.buffer.ghost_name }
    {
        if self.at == self.end {
            self.end = self.reader.read(self.buffer)?;
            self.at = 0;
        }
        Ok(())
    }

    // The next line without its newline, which the last one may lack. Bytes for which there is no room are passed over. An
    // error is the reader's own, and leaves open which bytes the line has.
    pub fn next_line(&mut self, line: &mut [u8]) -> io::Result<Option<Line>>
        ensures ok { IfOk result (λ o. IfSome o (λ l. l.length ≤ length line.new)) }
        ensures err { OnErr result (length line.new ≡ length line.old) }
        ensures kept { length self.new.buffer.now ≡ length self.old.buffer.now }
        ensures same { self.new.buffer.ghost_name ≡ self.old.buffer.ghost_name }
    {
        let mut held = 0;
        for _ in 0..MOST_TURNS {
            self.fill()?;
            let piece = &self.buffer[self.at..self.end];
            if piece.is_empty() {
                break;
            }
            match field::find(piece, NEWLINE) {
                Some(e) => {
                    let length = append(line, held, &piece[..e]);
                    self.at += e + 1;
                    return Ok(Some(Line {
                        length,
                        ended: true,
                    }));
                }
                None => {
                    held = append(line, held, piece);
                    self.at = self.end;
                }
            }
        }
        if held == 0 {
            return Ok(None);
        }
        Ok(Some(Line {
            length: held,
            ended: false,
        }))
    }
}

// Fills a buffer as far as the input goes; answers how many bytes there are, and no slice, since `err` says what is left
// of the buffer. A read gives as many bytes as it likes, so that no range counts the turns.
pub fn read_full<R: Read>(reader: &mut R, buffer: &mut [u8]) -> io::Result<usize>
    ensures ok { IfOk result (λ n. n ≤ length buffer.new) }
    ensures err { OnErr result (length buffer.new ≡ length buffer.old) }
{
    let mut done = 0;
    while done < buffer.len() {
        let n = reader.read(&mut buffer[done..])?;
        if n == 0 {
            break;
        }
        done += n;
    }
    Ok(done)
}
