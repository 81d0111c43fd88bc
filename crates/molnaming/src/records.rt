// Records of molfiles in an input, parted by lines that begin with $$$$.
ghost use Rattle.std.specs.Prelude.{◌≡◌, ◌≤◌, length, take, IfSome, IfOk, OnErr};
ghost use Rattle.molnaming.specs.Records.{is_parting, is_blank, all_blank, is_record, with_line};

use lines::NEWLINE;
use lines::input::{Lines, MOST_TURNS};
use std::io;
use std::io::Read;

// One byte more than a molfile may have is enough for refusal 4.
pub const ENOUGH: usize = 65537;

fn is_parting(line: &[u8]) -> bool
    ensures { result ≡ is_parting line.now }
{
    line.starts_with(b"$$$$")
}

#[tactic(auto, unfolding(crate::specs::Records::is_blank))]
fn is_blank(b: u8) -> bool
    ensures { result ≡ is_blank b }
{
    matches!(b, b' ' | b'\t' | b'\r' | b'\n')
}

fn all_blank(bytes: &[u8]) -> bool
    ensures { result ≡ all_blank bytes.now }
{
    bytes.iter().all(|b| is_blank(*b))
}

// Whether what follows the last parting line is a record.
#[tactic(auto, unfolding(crate::specs::Records::is_record))]
fn is_record(rest: &[u8]) -> bool
    ensures { result ≡ is_record rest.now }
{
    ENOUGH <= rest.len() || !all_blank(rest)
}

// The record with the newline of the line that was read behind it, which ends at `end`; answers how many bytes are held.
fn hold(file: &mut [u8], end: usize, ended: bool) -> usize
    requires { (end ≤ length file.old) × (65537 ≤ length file.old) }
    ensures { (take result file.new ≡ with_line file.old end ended) × (result ≤ 65537) }
{
    if ENOUGH <= end {
        return ENOUGH;
    }
    if !ended {
        return end;
    }
    file[end] = NEWLINE;
    end + 1
}

// The next record at the start of a buffer, as much of it as tells its name or refusal; answers how many bytes there are.
pub fn next_record<R: Read>(lines: &mut Lines<R>, file: &mut [u8]) -> io::Result<Option<usize>>
    requires { 65541 ≤ length file.old }
    ensures ok { IfOk result (λ o. IfSome o (λ n. n ≤ 65537)) }
    ensures err { OnErr result (length file.new ≡ length file.old) }
    ensures kept { length lines.new.buffer.now ≡ length lines.old.buffer.now }
    ensures same { lines.new.buffer.ghost_name ≡ lines.old.buffer.ghost_name }
{
    let mut held = 0;
    for _ in 0..MOST_TURNS {
        let Some(line) = lines.next_line(&mut file[held..])? else {
            return Ok(is_record(&file[..held]).then_some(held));
        };
        let end = held + line.length;
        if is_parting(&file[held..end]) {
            return Ok(Some(held));
        }
        held = hold(file, end, line.ended);
    }
    Ok(None)
}
