// The state after a step.
ghost use Rattle.sling.specs.Items.{atom};
ghost use Rattle.text.specs.Changing.{Continues, Follows};
ghost use Rattle.text.specs.Judging.{step_of};

use crate::item::{Place, Step};
use crate::state::State;
use kinds::Kind;

impl State {
    // An atom more; the first has no bond to another.
    fn put_atom(&mut self, code: u8, kind: Kind)
        requires { Continues self.old (atom code kind) }
        ensures { Follows self.old (atom code kind) self.new }
    {
        let place = Place(self.n as u16);
        self.grow(kind);
        if place.0 == 0 {
            self.cursor = place;
        } else {
            self.draw(place, code);
        }
    }

    pub fn follow(&mut self, step: Step)
        requires { Continues self.old (step_of step) }
        ensures { Follows self.old (step_of step) self.new }
    {
        match step {
            Step::Atom { code, kind } => self.put_atom(code, kind),
            Step::Reference(place) => self.cursor = place,
            Step::Ring { code, place } => self.draw(place, code),
        }
    }
}
