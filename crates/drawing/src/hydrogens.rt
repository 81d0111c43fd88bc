// What is judged of a drawing once every bond is folded.
ghost use Rattle.std.specs.Prelude.{◌≡◌, ◌≤◌, ◌<◌};
ghost use Rattle.refusal.specs.Numbers.{refusal_in};
ghost use Rattle.table.specs.View.{TidyTable, EvenTable};
ghost use Rattle.drawing.specs.View.{numbers_of, Fits};
ghost use Rattle.drawing.specs.Tests.{lone_in, hydrogens_tested};
ghost use Rattle.drawing.specs.Folding.{finished_fault};

use super::Drawing;
use super::folding::Folding;
use kinds::Kind;
use refusal::Refusal;
use table::Table;

impl Folding {
    // Whether an H has no bond.
    fn has_lone_h(&self, drawing: &Drawing) -> bool
        requires { Fits drawing.now }
        ensures { result ≡ lone_in (numbers_of drawing.now) self.now.used drawing.now.counts.atoms }
    {
        for p in 0..drawing.counts.atoms {
            if drawing.kinds[p] == Some(Kind::H) && !self.used[p] {
                return true;
            }
        }
        false
    }

    // 4 for hydrogens on one atom, or for their total.
    fn hydrogens_fault(&self) -> Result<(), Refusal>
        requires { self.now.table.n ≤ 64 }
        ensures { refusal_in result ≡ hydrogens_tested self.now.table.hydrogens self.now.table.n }
    {
        let mut total: usize = 0;
        for h in &self.table.hydrogens[..self.table.n] {
            let h = *h as usize;
            if Table::MAX_HYDROGENS_ON < h {
                return Err(Refusal::OverLimit);
            }
            total += h;
        }
        if Table::MAX_HYDROGENS < total {
            return Err(Refusal::OverLimit);
        }
        Ok(())
    }

    // What is judged once all bonds are: 7 for an H without a bond, 4 for hydrogens, 8.
    pub fn finished(&self, drawing: &Drawing) -> Result<(), Refusal>
        requires { Fits drawing.now × TidyTable self.now.table × EvenTable self.now.table × (0 < self.now.table.n) }
        ensures { refusal_in result ≡ finished_fault drawing.now self.now }
    {
        if self.has_lone_h(drawing) {
            return Err(Refusal::WrongHydrogen);
        }
        self.hydrogens_fault()?;
        if !self.table.connected() {
            return Err(Refusal::NotConnected);
        }
        Ok(())
    }
}
