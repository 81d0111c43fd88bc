// How many atoms and bonds of a drawing count.
ghost use Rattle.std.specs.Prelude.{◌≡◌, not, ◌||◌, ◌≤◌};
ghost use Rattle.refusal.specs.Numbers.{refusal_in};
ghost use Rattle.drawing.specs.View.{kinds_in, bonds_in, Fits};
ghost use Rattle.drawing.specs.Tests.{is_h_in, heavy_in, heavy_bonds_in, counts_tested};

use super::Drawing;
use kinds::Kind;
use refusal::Refusal;

impl Drawing {
    // Whether an atom is there and an H.
    fn is_h(&self, place: u16) -> bool
        requires { Fits self.now }
        ensures { result ≡ is_h_in (kinds_in self.now) place }
    {
        let p = place as usize;
        p < self.counts.atoms && self.kinds[p] == Some(Kind::H)
    }

    fn heavy_atoms(&self) -> usize
        requires { Fits self.now }
        ensures { result ≡ heavy_in (kinds_in self.now) }
    {
        let mut n: usize = 0;
        for kind in &self.kinds[..self.counts.atoms] {
            if *kind != Some(Kind::H) {
                n += 1;
            }
        }
        n
    }

    // How many bonds have no H at an end.
    fn heavy_bonds(&self) -> usize
        requires { Fits self.now }
        ensures { result ≡ heavy_bonds_in (kinds_in self.now) (bonds_in self.now) }
    {
        let mut n: usize = 0;
        for bond in &self.bonds[..self.counts.bonds] {
            if !self.is_h(bond.one) && !self.is_h(bond.two) {
                n += 1;
            }
        }
        n
    }

    // 1 for no atom but H, 4 for too many other atoms or bonds between them: as on a card, H and its bonds left out.
    pub fn counts_fault(&self) -> Result<(), Refusal>
        requires { Fits self.now }
        ensures { refusal_in result ≡ counts_tested (heavy_in (kinds_in self.now)) (heavy_bonds_in (kinds_in self.now) (bonds_in self.now)) }
    {
        card::layout::counts_fault(self.heavy_atoms(), self.heavy_bonds())
    }
}
