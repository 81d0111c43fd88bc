// The programs `molname` and `sdfname` over a reader and a writer: a molfile, or records of molfiles, in and a line for each out.
#![tactic(auto)]

use crate::records::ENOUGH;
use lines::input;
use lines::input::{Lines, MOST_TURNS, PIECE};
use std::io;
use std::io::{Read, Write};

mod line;
mod part;
mod records;
mod refused;

// One byte more than a molfile may have, and the four that tell a parting line.
const MOST_RECORD: usize = 65541;

// A name or a refusal and a newline, behind a record's number.
const LONGEST_LINE: usize = 2071;

// As the program `name` does; one function for both would take the two sizes and a closure with a clause on both buffers,
// which is no plainer than five lines.
pub fn run<R: Read, W: Write>(reader: &mut R, writer: &mut W) -> io::Result<()> {
    let mut file = [0u8; ENOUGH];
    let n = input::read_full(reader, &mut file)?;
    let mut printed = [0u8; LONGEST_LINE];
    let k = line::mol_line(&file[..n], &mut printed);
    writer.write_all(&printed[..k])
}

pub fn run_records<R: Read, W: Write>(reader: &mut R, writer: &mut W) -> io::Result<()> {
    let mut buffer = [0u8; PIECE];
    let mut lines = Lines::new(reader, &mut buffer);
    let mut file = [0u8; MOST_RECORD];
    let mut printed = [0u8; LONGEST_LINE];
    for done in 0..MOST_TURNS {
        let Some(n) = records::next_record(&mut lines, &mut file)? else {
            return Ok(());
        };
        let k = line::record_line(done + 1, &file[..n], &mut printed);
        writer.write_all(&printed[..k])?;
    }
    Ok(())
}
