// Line-wise programs: lines read from an input, their fields, numbers and bytes, and the same printed into a buffer.
#![tactic(auto)]

pub mod field;
pub mod hex;
pub mod input;
pub mod number;
pub mod output;

pub(crate) const BLANK: u8 = b' ';

pub const NEWLINE: u8 = b'\n';

// The numberings that a program allows a name, and the bytes that it lends for one, which hold any.
pub const ALLOWANCE: u16 = 4096;

pub const MOST_NAME: usize = 2048;
