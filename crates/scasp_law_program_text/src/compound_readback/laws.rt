//! What is written of a term is read back as this term.
ghost use Rattle.std.specs.Prelude.{◌≡◌, ℕ, true, List, Some};
ghost use Rattle.scasp_syntax.specs.Tm.{Tm};
ghost use Rattle.scasp_reader_terms.specs.Steps.{State};
ghost use Rattle.scasp_reader_terms.specs.Terms.{term};
ghost use Rattle.scasp_print_program.specs.Terms.{Style, term_text};
ghost use Rattle.scasp_law_program_text.specs.TermReadback.Reading.{EndsTerm};
ghost use Rattle.scasp_law_program_text.specs.CompoundReadback.Styles.{IsStyle};
ghost use Rattle.scasp_law_program_text.specs.CompoundReadback.Fitting.{fits};
ghost use Rattle.scasp_law_program_text.specs.CompoundReadback.Counting.{count};
ghost use Rattle.scasp_law_program_text.specs.CompoundReadback.Reading.{Reads};

/// The text of a term is read as this term, before any bytes that may stand behind one.
pub fn terms_are_read_back()
    ensures { (w : Style) (room n m : ℕ) (t : Tm) (s : State) (rest : List ℕ) → IsStyle w → fits w room t ≡ true → count w n t ≡ Some m → EndsTerm rest
        → Reads w n m (term room) (term_text w room t) t s rest }
{}
