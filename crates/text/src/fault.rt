// Judging an item.
ghost use Rattle.std.specs.Prelude.{◌≡◌, ◌≤◌, ◌<◌, ◌||◌, cond, eqb, length};
ghost use Rattle.sling.specs.Items.{atom, reference, ring};
ghost use Rattle.kinds.specs.Known.{kind_in};
ghost use Rattle.refusal.specs.Numbers.{refusal_in};
ghost use Rattle.text.specs.Scanning.{target_of, item_of};
ghost use Rattle.text.specs.Holding.{view_of, Held};
ghost use Rattle.text.specs.Judging.{h_broken, wrong_h, over_on, over_with, paired_in, reference_fault, Few, IsKnown, Opens, Judges};

use crate::item::{Item, Place, Step, Target};
use crate::state::{State, TextAtom, h_bond};
use kinds::Kind;
use refusal::Refusal;
use table::Table;

// The kind of a symbol.
fn known(symbol: Option<Kind>) -> Result<Kind, Refusal>
    ensures { IsKnown symbol result }
{
    Kind::known(symbol).ok_or(Refusal::UnknownKind)
}

// Whether a new bond breaks the H rule at an end of a kind, which has so many bonds to an H before.
fn h_broken(kind: Kind, other: Kind, code: u8, bonds: u8) -> bool
    ensures { result ≡ h_broken kind other code bonds }
{
    kind == Kind::H && (other == Kind::H || 1 < code || 0 < bonds)
}

// The H rule at both ends.
fn h_fault(from: &TextAtom, to: &TextAtom, code: u8) -> Result<(), Refusal>
    ensures { refusal_in result ≡ cond (wrong_h from.now to.now code) 7 0 }
{
    if h_broken(from.kind, to.kind, code, from.hydrogens) {
        return Err(Refusal::WrongHydrogen);
    }
    if h_broken(to.kind, from.kind, code, to.hydrogens) {
        return Err(Refusal::WrongHydrogen);
    }
    Ok(())
}

// Whether a limit is passed on one atom.
fn over_on(atom: &TextAtom) -> bool
    ensures { result ≡ over_on atom.now }
{
    Table::MAX_HYDROGENS_ON < atom.hydrogens as usize || Table::MAX_BONDS_ON < atom.bonds as usize
}

// The first item is an atom without a mark.
fn opening(item: Item) -> Result<Step, Refusal>
    ensures { Opens (item_of item) result }
{
    let Item::Atom { code, kind } = item else {
        return Err(Refusal::Malformed);
    };
    if 1 < code {
        return Err(Refusal::Malformed);
    }
    let kind = known(kind)?;
    Ok(Step::Atom { code, kind })
}

impl State {
    // A place that is not there.
    fn place_fault(&self, place: Place) -> Result<(), Refusal>
        ensures { refusal_in result ≡ reference_fault self.now.n place.0 }
    {
        if self.n <= place.0 as usize {
            return Err(Refusal::NotThere);
        }
        Ok(())
    }

    // A bond to itself, or a second one on the pair.
    fn pair_fault(&self, to: Place) -> Result<(), Refusal>
        requires { self.now.drawn ≤ length self.now.links }
        ensures { refusal_in result ≡ cond (eqb self.now.cursor.0 to.0 || paired_in self.now to.0) 6 0 }
    {
        if self.cursor == to {
            return Err(Refusal::WrongBond);
        }
        if self.paired(to) {
            return Err(Refusal::WrongBond);
        }
        Ok(())
    }

    // The limits with a bond more between two atoms, where there are then so many atoms and hydrogens.
    fn limit_fault(
        &self,
        atoms: usize,
        hydrogens: usize,
        from: &TextAtom,
        to: &TextAtom,
    ) -> Result<(), Refusal>
        requires { (self.now.bonds ≤ 80) × Few from.now × Few to.now }
        ensures { refusal_in result ≡ cond (over_with atoms hydrogens self.now.bonds from.now to.now) 4 0 }
    {
        let to_h = h_bond(from.kind, to.kind);
        let bonds = self.bonds + !to_h as usize;
        let one = from.raised(to_h);
        let other = to.raised(to_h);
        if Table::MAX_ATOMS < atoms
            || Table::MAX_HYDROGENS < hydrogens
            || Table::MAX_BONDS < bonds
            || over_on(&one)
            || over_on(&other)
        {
            return Err(Refusal::OverLimit);
        }
        Ok(())
    }

    // An atom behind the first: 3, 7, 4.
    fn atom_judged(&self, code: u8, symbol: Option<Kind>) -> Result<Step, Refusal>
        requires { Held self.now × (0 < self.now.n) }
        ensures { Judges (view_of self.now) (atom code (kind_in symbol)) result }
    {
        let kind = known(symbol)?;
        let from = self.atom(self.cursor);
        let new = TextAtom::new(kind, self.cursor);
        h_fault(&from, &new, code)?;
        let is_h = kind == Kind::H;
        let atoms = self.atoms + !is_h as usize;
        let hydrogens = self.total + is_h as usize;
        self.limit_fault(atoms, hydrogens, &from, &new)?;
        Ok(Step::Atom { code, kind })
    }

    // A ring bond: 5, 7, 6, 4.
    fn ring_judged(&self, code: u8, target: Target) -> Result<Step, Refusal>
        requires { Held self.now × (0 < self.now.n) }
        ensures { Judges (view_of self.now) (ring code (target_of target)) result }
    {
        let place = self.named(target);
        self.place_fault(place)?;
        let from = self.atom(self.cursor);
        let to = self.atom(place);
        h_fault(&from, &to, code)?;
        self.pair_fault(place)?;
        self.limit_fault(self.atoms, self.total, &from, &to)?;
        Ok(Step::Ring { code, place })
    }

    // A reference: 5.
    fn reference_judged(&self, target: Target) -> Result<Step, Refusal>
        requires { Held self.now × (0 < self.now.n) }
        ensures { Judges (view_of self.now) (reference (target_of target)) result }
    {
        let place = self.named(target);
        self.place_fault(place)?;
        Ok(Step::Reference(place))
    }

    // The step that an item is, or the refusal that it deserves.
    pub fn judged(&self, item: &Item) -> Result<Step, Refusal>
        requires { Held self.now }
        ensures { Judges (view_of self.now) (item_of item.now) result }
    {
        if self.n == 0 {
            return opening(*item);
        }
        match *item {
            Item::Atom { code, kind } => self.atom_judged(code, kind),
            Item::Reference(target) => self.reference_judged(target),
            Item::Ring { code, target } => self.ring_judged(code, target),
        }
    }
}
