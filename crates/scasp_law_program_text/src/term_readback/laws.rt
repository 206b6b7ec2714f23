//! What is written of a term is read back as this term.
ghost use Rattle.std.specs.Prelude.{◌≡◌, ℕ, ◌+◌, ◌<◌, true, List, [], ◌∷◌, ◌++◌, length, codes, None, Some};
ghost use Rattle.std.specs.Str.{IsUtf8};
ghost use Rattle.scasp_name.specs.Texts.{with_text};
ghost use Rattle.scasp_num.specs.Number.{Number, InRange};
ghost use Rattle.scasp_syntax.specs.Tm.{var, num, app, nil};
ghost use Rattle.scasp_cert.specs.Text.Names.{quoted_text};
ghost use Rattle.scasp_cert.specs.Text.Terms.{number_text};
ghost use Rattle.scasp_reader_terms.specs.declared.reader.TheConstants.{VARIABLE_LIMIT};
ghost use Rattle.scasp_reader_terms.specs.Names.{place_in, known_variable};
ghost use Rattle.scasp_reader_terms.specs.Steps.{State};
ghost use Rattle.scasp_law_program_text.specs.Readback.Endings.{ends_name, is_variable_text};
ghost use Rattle.scasp_law_program_text.specs.TermReadback.Reading.{IsReadAs, IsReadAsWith, EndsTerm, ends_number_term, ends_name_term};

/// A number within M that is written is read as this number.
pub fn numbers_are_read_as_terms()
    ensures { (q : Number) (rest : List ℕ) (room : ℕ) (s : State) → InRange q.num → InRange q.den → ends_number_term rest
        → IsReadAs room (number_text q) (num q) s rest }
{}

/// The text of a variable is read as this variable: by its number, where the clause has had it, and else by the next number.
pub fn variables_are_read_as_terms()
    ensures known { (text rest : List ℕ) (room x : ℕ) (s : State) → is_variable_text text ≡ true → ends_name rest ≡ true → known_variable text s.variables ≡ Some x
        → IsReadAs room text (var x) s rest }
    ensures first { (text rest : List ℕ) (room : ℕ) (s : State) → is_variable_text text ≡ true → ends_name rest ≡ true → known_variable text s.variables ≡ None → length s.variables < VARIABLE_LIMIT
        → IsReadAsWith room text (var (length s.variables)) s.names (s.variables ++ text ∷ []) s rest }
{}

/// A name that is written, without arguments, is read as this name by its place in the table, which gets it where it lacks it.
pub fn names_are_read_as_terms()
    ensures { (text rest : List ℕ) (room : ℕ) (s : State) → IsUtf8 text → ends_name_term rest
        → IsReadAsWith room (quoted_text text) (app (place_in s.names text) nil) (with_text s.names text) s.variables s rest }
{}

/// The empty list in brackets is read as name 0, where a bracket may be opened.
pub fn empty_lists_are_read_as_terms()
    ensures { (rest : List ℕ) (room : ℕ) (s : State) → IsReadAs (room + 1) (codes "[]") (app 0 nil) s rest }
{}

/// What is written behind a term ends a number and a name.
pub fn ends_are_written()
    ensures comma { (rest : List ℕ) → EndsTerm (codes "," ++ rest) }
    ensures closing { (rest : List ℕ) → EndsTerm (codes ")" ++ rest) }
    ensures closing_list { (rest : List ℕ) → EndsTerm (codes "]" ++ rest) }
    ensures bar { (rest : List ℕ) → EndsTerm (codes "|" ++ rest) }
    ensures equal { (rest : List ℕ) → EndsTerm (codes " = " ++ rest) }
    ensures differ { (rest : List ℕ) → EndsTerm (codes " \\= " ++ rest) }
    ensures stop { (rest : List ℕ) → EndsTerm (codes ".\n" ++ rest) }
{}
