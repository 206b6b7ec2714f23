//! What is read of a text can be written: tokens, and terms.
ghost use Rattle.std.specs.Prelude.{◌≡◌, ℕ, true, List, length, None, Some, Ok};
ghost use Rattle.scasp_syntax.specs.Tm.{Tm};
ghost use Rattle.scasp_reader_tokens.specs.Tokens.{tokens_of};
ghost use Rattle.scasp_reader_terms.specs.Steps.{State, start};
ghost use Rattle.scasp_reader_terms.specs.Terms.{term};
ghost use Rattle.scasp_print_program.specs.Terms.{Style};
ghost use Rattle.scasp_law_program_text.specs.CompoundReadback.Styles.{IsTable};
ghost use Rattle.scasp_law_program_text.specs.CompoundReadback.Fitting.{fits};
ghost use Rattle.scasp_law_program_text.specs.CompoundReadback.Counting.{count};
ghost use Rattle.scasp_law_program_text.specs.TermFitting.Readers.{known, AreTokens, IsReader, Covers};

/// The tokens of a text are such as can be written: names are UTF-8, variables have the texts of such, numbers lie within M.
pub fn tokens_can_be_written()
    ensures tokens { (bytes : List ℕ) → AreTokens (tokens_of bytes) }
    ensures reader { (names : List (List ℕ)) (bytes : List ℕ) → IsTable names → IsReader (start (tokens_of bytes) names) }
{}

/// A term that is read fits in each style for what is then known, with the brackets that might be opened, and its
/// variables are numbered in the order of its text. The reader stays one of a text.
pub fn terms_that_are_read_fit()
    ensures fit { (room : ℕ) (s t : State) (x : Tm) (w : Style) → IsReader s → term room s ≡ Ok (x, t) → t.fault ≡ None → Covers w (known t) → fits w room x ≡ true }
    ensures counted { (room : ℕ) (s t : State) (x : Tm) (w : Style) → IsReader s → term room s ≡ Ok (x, t) → t.fault ≡ None → Covers w (known t)
        → count w (length s.variables) x ≡ Some (length t.variables) }
    ensures reader { (room : ℕ) (s t : State) (x : Tm) → IsReader s → term room s ≡ Ok (x, t) → IsReader t }
{}
