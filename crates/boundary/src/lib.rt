// The five functions for C, as a library: boundary_c exports them.
#![tactic(auto)]

ghost use Rattle.rules.specs.Runs.{NameRun, CardRun, CanonicalRun, MarksRun};
ghost use Rattle.ctfile.specs.Molfiles.{MolfileRun};
ghost use Rattle.scallopgrid.specs.Returned.{returned};

use scallopgrid::Answer;

pub fn scallopgrid_name_of(card: &[u8], allowance: u16, out: &mut [u8]) -> Answer
    ensures { NameRun card.now allowance out.old (returned result out.new) }
{
    scallopgrid::name_of_card(card, allowance, out)
}

pub fn scallopgrid_card_of(text: &[u8], out: &mut [u8]) -> Answer
    ensures { CardRun text.now out.old (returned result out.new) }
{
    scallopgrid::card_of_text(text, out)
}

pub fn scallopgrid_canonical_of(card: &[u8], allowance: u16, out: &mut [u8]) -> Answer
    ensures { CanonicalRun card.now allowance out.old (returned result out.new) }
{
    scallopgrid::canonical_card(card, allowance, out)
}

pub fn scallopgrid_marks_of(card: &[u8], allowance: u16, out: &mut [u8]) -> Answer
    ensures { MarksRun card.now allowance out.old (returned result out.new) }
{
    scallopgrid::class_marks(card, allowance, out)
}

pub fn scallopgrid_name_of_molfile(file: &[u8], allowance: u16, out: &mut [u8]) -> Answer
    ensures { MolfileRun file.now allowance out.old (returned result out.new) }
{
    scallopgrid::name_of_molfile(file, allowance, out)
}
