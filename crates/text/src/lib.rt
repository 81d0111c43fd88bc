// Reading a text: its items, one by one, into the card of the molecule that it writes.
#![tactic(auto)]

ghost use Rattle.text.specs.Holding.{view_of, Held};
ghost use Rattle.text.specs.Answering.{Answered, Writes};

use refusal::{Refusal, Refused};
use state::State;

mod after;
mod fault;
mod fold;
mod item;
mod number;
mod read;
mod scan;
mod state;
mod target;

const MOST_TEXT: usize = 4096;

// The card of a text: its length, or a refusal with its place, an offset in the text.
pub fn card_of(text: &[u8], out: &mut [u8]) -> Result<usize, Refused>
    ensures { Answered text.now out.old out.new result }
{
    let n = text.len();
    if n == 0 {
        return Err(Refused {
            refusal: Refusal::NoAtoms,
            place: 0,
        });
    }
    if MOST_TEXT < n {
        return Err(Refused {
            refusal: Refusal::OverLimit,
            place: 0,
        });
    }
    // A `match`, since the check makes no proof of `?` on a result that holds a state.
    match read::read(text) {
        Err(refused) => Err(refused),
        Ok(state) => written(&state, n, out),
    }
}

// The card of what was read of a text of so many bytes.
fn written(state: &State, n: usize, out: &mut [u8]) -> Result<usize, Refused>
    requires { Held state.now }
    ensures { Writes (view_of state.now) n out.old out.new result }
{
    if state.lone_h() {
        return Err(Refused {
            refusal: Refusal::WrongHydrogen,
            place: n,
        });
    }
    let table = fold::folded(state);
    card::write(&table, out).map_err(|refusal| Refused { refusal, place: n })
}
