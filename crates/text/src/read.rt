// Reading the items of a text.
ghost use Rattle.text.specs.Outcomes.{Reads};

use crate::scan::scan;
use crate::state::State;
use refusal::{Refusal, Refused};

// The items of a text, read one by one; a refusal's place is the offset of the item's first byte.
pub fn read(text: &[u8]) -> Result<State, Refused>
    ensures { Reads text.now result }
{
    let mut state = State::empty();
    let mut at: usize = 0;
    // An item's own length says where the next begins, so no range counts the turns.
    while at < text.len() {
        let Some(scanned) = scan(text, at) else {
            return Err(Refused {
                refusal: Refusal::Malformed,
                place: at,
            });
        };
        match state.judged(&scanned.item) {
            Ok(step) => state.follow(step),
            Err(refusal) => return Err(Refused { refusal, place: at }),
        }
        at = scanned.next;
    }
    Ok(state)
}
