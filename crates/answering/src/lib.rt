// The program `answers` over a reader and a writer: for each line that asks, a line that answers.
#![tactic(auto)]

use lines::input::{Lines, MOST_TURNS, PIECE};
use std::io;
use std::io::{Read, Write};

mod answer;
mod request;

// One byte more than the longest sound line, so that a longer one is broken however it is cut.
const LONGEST_LINE: usize = 131218;

// More than the longest molfile, so that one that is too long can be asked about.
const MOST_INPUT: usize = 65600;

// Four numbers with a blank each, 4,096 bytes in hexadecimal and a newline, with a byte to spare.
const LONGEST_ANSWER: usize = 8278;

pub fn run<R: Read, W: Write>(reader: &mut R, writer: &mut W) -> io::Result<()> {
    let mut buffer = [0u8; PIECE];
    let mut lines = Lines::new(reader, &mut buffer);
    let mut line = [0u8; LONGEST_LINE];
    let mut input = [0u8; MOST_INPUT];
    let mut printed = [0u8; LONGEST_ANSWER];
    for _ in 0..MOST_TURNS {
        let Some(l) = lines.next_line(&mut line)? else {
            return Ok(());
        };
        let k = answer::answer(&line[..l.length], &mut input, &mut printed);
        writer.write_all(&printed[..k])?;
    }
    Ok(())
}
