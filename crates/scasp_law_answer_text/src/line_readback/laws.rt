//! What is written of a line is read back.
ghost use Rattle.std.specs.Prelude.{◌≡◌, ℕ, true, List, [], ◌++◌, length, flat_map, ◌≤◌, Some, Ok};
ghost use Rattle.scasp_syntax.specs.declared.con.Con.{Con};
ghost use Rattle.scasp_syntax.specs.Tm.{Tms};
ghost use Rattle.scasp_cert.specs.Text.Terms.{list_text};
ghost use Rattle.scasp_cert.specs.Text.Constraints.{con_text};
ghost use Rattle.scasp_cert.specs.Text.Hints.{hint_text};
ghost use Rattle.scasp_syntax.specs.declared.hint.Hint.{Hint};
ghost use Rattle.scasp_law_program_text.specs.Readback.Endings.{ends_name};
ghost use Rattle.scasp_answers_terms.specs.Tokens.Hints.{hint_at};
ghost use Rattle.scasp_reader_terms.specs.Names.{place_in};
ghost use Rattle.scasp_answers_terms.specs.Tokens.Tokens.{tokens_in};
ghost use Rattle.scasp_answers_terms.specs.Tokens.Bounds.{terms_fit, con_fits, hint_fits};
ghost use Rattle.scasp_answers_terms.specs.Tokens.Terms.{list_at};
ghost use Rattle.scasp_answers_terms.specs.Tokens.Constraints.{con_at};
ghost use Rattle.scasp_answers_terms.specs.Tokens.Lines.{Line, words_of};
ghost use Rattle.scasp_answers_terms.specs.Tokens.Forms.{line_in};
ghost use Rattle.std.specs.List.{list_all};
ghost use Rattle.scasp_reader_tokens.specs.Bytes.{is_of_line};
ghost use Rattle.scasp_answers.specs.Blocks.Files.{byte_limit, file_in};
ghost use Rattle.scasp_law_answer_text.specs.LineReadback.Texts.{Piece, file_text, piece_entries, is_printable};
ghost use Rattle.scasp_law_answer_text.specs.LineReadback.Endings.{begins_lower};
ghost use Rattle.scasp_law_answer_text.specs.LineReadback.Writable.{IsTable, are_named, is_spelled, is_hint, Writable};

use scasp_answers::blocks::laws::blocks_are_lines;

/// A list of terms is read back, whatever follows.
pub fn lists_are_read_back()
    ensures { (names : List (List ℕ)) (ts : Tms) (rest : List ℕ) → IsTable names → are_named (length names) ts ≡ true → terms_fit ts ≡ true
        → list_at (place_in names) (tokens_in (list_text names ts ++ rest)) ≡ Some (ts, tokens_in rest) }
{}

/// A constraint is read back, with nothing behind it.
pub fn constraints_are_read_back()
    ensures { (names : List (List ℕ)) (c : Con) → IsTable names → is_spelled (length names) c ≡ true → con_fits c ≡ true
        → con_at (place_in names) (tokens_in (con_text names c)) ≡ Some (c, tokens_in []) }
{}

/// A hint is read back, with nothing behind it.
pub fn hints_are_read_back()
    ensures { (h : Hint) (rest : List ℕ) → is_hint h ≡ true → hint_fits h ≡ true → ends_name rest ≡ true → hint_at (tokens_in (hint_text h ++ rest)) ≡ Some (h, tokens_in rest) }
{}

/// What is written of a line is read as this line.
pub fn lines_are_read_back()
    ensures { (names : List (List ℕ)) (l : Line) → Writable names l → line_in (place_in names) (words_of names l) ≡ Some l }
{}

/// What is written of a line begins with a letter and holds no line feed.
pub fn texts_are_lines()
    ensures first { (names : List (List ℕ)) (l : Line) → begins_lower (words_of names l) ≡ true }
    ensures one { (names : List (List ℕ)) (l : Line) → Writable names l → list_all is_of_line (words_of names l) ≡ true }
{}

/// A file of the header and of what is printed, remarks between, is read as these blocks, ends and rejected answers, in their order.
pub fn texts_are_read_back()
    ensures { (names : List (List ℕ)) (pieces : List Piece) → IsTable names → list_all (is_printable (length names)) pieces ≡ true → length (file_text names pieces) ≤ byte_limit
        → file_in names (file_text names pieces) ≡ Ok (flat_map piece_entries pieces) }
{
    blocks_are_lines();
}
