// What a call answers, of what came of its input.
ghost use Rattle.std.specs.Prelude.{◌≡◌};
ghost use Rattle.scallopgrid.specs.Returned.{answer_of, from_start, no_leaves};

use crate::Answer;
use outputs::Accepted;
use refusal::{Refusal, Refused};
use table::Table;

// A refusal, by its number and place, or what was accepted.
pub fn answered(outcome: Result<Accepted, Refused>) -> Answer
    ensures { result ≡ answer_of outcome }
{
    match outcome {
        Ok(a) => Answer {
            refusal: 0,
            place: 0,
            leaves: a.leaves,
            length: a.length,
        },
        Err(p) => Answer {
            refusal: p.refusal.number(),
            place: p.place,
            leaves: 0,
            length: 0,
        },
    }
}

// A card's refusals have place 0.
pub fn at_start(read: Result<Table, Refusal>) -> Result<Table, Refused>
    ensures { result ≡ from_start read }
{
    match read {
        Ok(t) => Ok(t),
        Err(refusal) => Err(refusal.into()),
    }
}

// "0 where a text is read"
pub fn without_leaves(read: Result<usize, Refused>) -> Result<Accepted, Refused>
    ensures { result ≡ no_leaves read }
{
    match read {
        Ok(length) => Ok(Accepted { leaves: 0, length }),
        Err(p) => Err(p),
    }
}
