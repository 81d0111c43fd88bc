// The five functions for C: include/scallopgrid.h declares them, and says what a caller keeps. A crate is a library or a
// static library, so each calls the function of its name in boundary, under the same clauses.
#![tactic(auto)]

ghost use Rattle.rules.specs.Runs.{NameRun, CardRun, CanonicalRun, MarksRun};
ghost use Rattle.ctfile.specs.Molfiles.{MolfileRun};
ghost use Rattle.scallopgrid.specs.Returned.{returned};

use scallopgrid::Answer;

#[unsafe(no_mangle)]
pub extern "C" fn scallopgrid_name_of(card: &[u8], allowance: u16, out: &mut [u8]) -> Answer
    ensures { NameRun card.now allowance out.old (returned result out.new) }
{
    boundary::scallopgrid_name_of(card, allowance, out)
}

#[unsafe(no_mangle)]
pub extern "C" fn scallopgrid_card_of(text: &[u8], out: &mut [u8]) -> Answer
    ensures { CardRun text.now out.old (returned result out.new) }
{
    boundary::scallopgrid_card_of(text, out)
}

#[unsafe(no_mangle)]
pub extern "C" fn scallopgrid_canonical_of(card: &[u8], allowance: u16, out: &mut [u8]) -> Answer
    ensures { CanonicalRun card.now allowance out.old (returned result out.new) }
{
    boundary::scallopgrid_canonical_of(card, allowance, out)
}

#[unsafe(no_mangle)]
pub extern "C" fn scallopgrid_marks_of(card: &[u8], allowance: u16, out: &mut [u8]) -> Answer
    ensures { MarksRun card.now allowance out.old (returned result out.new) }
{
    boundary::scallopgrid_marks_of(card, allowance, out)
}

#[unsafe(no_mangle)]
pub extern "C" fn scallopgrid_name_of_molfile(file: &[u8], allowance: u16, out: &mut [u8]) -> Answer
    ensures { MolfileRun file.now allowance out.old (returned result out.new) }
{
    boundary::scallopgrid_name_of_molfile(file, allowance, out)
}
