//! Reading is Ok on the grammar alone.
ghost use Rattle.std.specs.Prelude.{◌≡◌, ◌↔◌, ℕ, List, Ok};
ghost use Rattle.scasp_reader.specs.declared.texts.texts.Reading.{Reading};
ghost use Rattle.scasp_reader.specs.Texts.Texts.{read};
ghost use Rattle.scasp_reader.specs.Programs.Programs.{program_in};
ghost use Rattle.scasp_law_program_text.specs.Grammar.Programs.{IsText, IsProgram};

/// What is read of a text is in the grammar, as what it is read as; and what is in the grammar is read so.
pub fn reading_is_ok_on_the_grammar_alone()
    ensures { (names : List (List ℕ)) (bytes : List ℕ) (r : Reading) → (read names bytes ≡ Ok r) ↔ IsText names bytes r }
{}

/// The same of programs, which have their generated denials.
pub fn programs_are_read_on_the_grammar_alone()
    ensures { (names : List (List ℕ)) (bytes : List ℕ) (r : Reading) → (program_in names bytes ≡ Ok r) ↔ IsProgram names bytes r }
{}

/// No text has two meanings, whatever trees it is the text of.
pub fn no_text_has_two_meanings()
    ensures { (names : List (List ℕ)) (bytes : List ℕ) (r q : Reading) → IsText names bytes r → IsText names bytes q → r ≡ q }
{}
