// Writing bytes into a lent buffer: all of them or none.
#![tactic(auto)]

ghost use Rattle.lent.specs.Written.{Written};

use refusal::Refusal;

/// How many bytes were written, or that the buffer has no room for them.
pub fn write(bytes: &[u8], out: &mut [u8]) -> Result<usize, Refusal>
    ensures { Written bytes.now out.old out.new result }
{
    let length = bytes.len();
    if out.len() < length {
        return Err(Refusal::NoRoom);
    }
    out[..length].copy_from_slice(bytes);
    Ok(length)
}
