// What a reference or a ring bond names.
ghost use Rattle.std.specs.Prelude.{◌≡◌, ◌≤◌, length};
ghost use Rattle.text.specs.Scanning.{Placed, Stepped, Aims};

use crate::item::{Place, Target};
use crate::number::number_at;

// A target with the offset behind it.
#[derive(Clone, Copy, Drop)]
pub struct Aim {
    pub target: Target,
    pub next: usize,
}

// A number that names a place.
pub fn place_at(text: &[u8], at: usize) -> Option<Aim>
    requires { at ≤ length text.now }
    ensures { Placed text.now at result }
{
    let number = number_at(text, at)?;
    Some(Aim {
        target: Target::At(Place(number.value)),
        next: at + number.bytes,
    })
}

// A number behind a `-`: steps up, at least one.
fn steps_at(text: &[u8], at: usize) -> Option<Aim>
    requires { at ≤ length text.now }
    ensures { Stepped text.now at result }
{
    let steps = number_at(text, at)?;
    if steps.value == 0 {
        return None;
    }
    Some(Aim {
        target: Target::Up(steps.value),
        next: at + steps.bytes,
    })
}

// A number or `-` and a number.
pub fn target_at(text: &[u8], at: usize) -> Option<Aim>
    requires { at ≤ length text.now }
    ensures { Aims text.now at result }
{
    if text.len() <= at {
        return None;
    }
    if text[at] == b'-' {
        return steps_at(text, at + 1);
    }
    place_at(text, at)
}
