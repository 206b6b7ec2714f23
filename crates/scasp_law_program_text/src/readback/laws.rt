//! What is written is read back.
ghost use Rattle.std.specs.Prelude.{◌≡◌, ℕ, ◌+◌, ◌<◌, ◌^◌, ◌==◌, true, false, List, ◌∷◌, ◌++◌, length, codes, decimal, pos};
ghost use Rattle.std.specs.Str.{IsUtf8};
ghost use Rattle.scasp_cert.specs.Text.Names.{quoted_text};
ghost use Rattle.scasp_cert.specs.Text.Terms.{var_text};
ghost use Rattle.scasp_num.specs.Arithmetic.{lowest};
ghost use Rattle.scasp_num.specs.declared.linear.Op.TheVariants as op;
ghost use Rattle.scasp_reader_tokens.specs.declared.sign.Sign.TheVariants as sign;
ghost use Rattle.scasp_reader_tokens.specs.Tokens.{placed, tokens_behind};
ghost use Rattle.scasp_reader_tokens.specs.declared.token.Token.TheVariants as token;
ghost use Rattle.scasp_law_program_text.specs.Readback.Endings.{ends_name, ends_number, is_variable_text};
ghost use Rattle.scasp_law_program_text.specs.Readback.SignTexts.{Reads, ReadsAt};

/// A name that is written, in quotes where it needs them, is read as this name.
pub fn names_are_read_back()
    ensures { (text rest : List ℕ) (at : ℕ) → IsUtf8 text → ends_name rest ≡ true
        → tokens_behind 0 at (quoted_text text ++ rest) ≡ placed at (token.Name text) ∷ tokens_behind 0 (at + length (quoted_text text)) rest }
{}

/// The text of a variable is read as this variable, and that of a rule's variable is one.
pub fn variables_are_read_back()
    ensures any { (text rest : List ℕ) (at : ℕ) → is_variable_text text ≡ true → ends_name rest ≡ true
        → tokens_behind 0 at (text ++ rest) ≡ placed at (token.Variable text) ∷ tokens_behind 0 (at + length text) rest }
    ensures of_rules { (x : ℕ) → x < 10 ^ 64 → is_variable_text (var_text x) ≡ true }
{}

/// The digits of a whole number within M are read as this number.
pub fn numbers_are_read_back()
    ensures { (n : ℕ) (rest : List ℕ) (at : ℕ) → n < 2 ^ 127 → ends_number rest ≡ true
        → tokens_behind 0 at (decimal n ++ rest) ≡ placed at (token.Number (lowest (pos n) (pos 1))) ∷ tokens_behind 0 (at + length (decimal n)) rest }
{}

/// Signs that no longer sign begins with are read as they are, whatever follows.
pub fn signs_are_read_back()
    ensures opening { Reads (codes "(") sign.Open }
    ensures closing { Reads (codes ")") sign.Close }
    ensures opening_list { Reads (codes "[") sign.OpenList }
    ensures closing_list { Reads (codes "]") sign.CloseList }
    ensures comma { Reads (codes ",") sign.Comma }
    ensures bar { Reads (codes "|") sign.Bar }
    ensures plus { Reads (codes "+") sign.Plus }
    ensures times { Reads (codes "*") sign.Times }
    ensures rule { Reads (codes ":-") sign.If }
    ensures query { Reads (codes "?-") sign.Query }
{}

/// Signs that a longer one begins with are read as they are before the bytes with which they are written.
pub fn front_signs_are_read_back()
    ensures minus { (b : ℕ) → (62 == b) ≡ false → ReadsAt (codes "-") sign.Minus b }
    ensures over { (b : ℕ) → (42 == b) ≡ false → ReadsAt (codes "/") sign.Over b }
    ensures equal { ReadsAt (codes "=") sign.Equal 32 }
    ensures differ { ReadsAt (codes "\\=") sign.Differ 32 }
    ensures equals { ReadsAt (codes "#=") (sign.Relation op.Eq false) 32 }
    ensures below { ReadsAt (codes "#<") (sign.Relation op.Lt false) 32 }
    ensures at_most { ReadsAt (codes "#=<") (sign.Relation op.Le false) 32 }
    ensures other { ReadsAt (codes "#<>") (sign.Relation op.Ne false) 32 }
    ensures stop { ReadsAt (codes ".") sign.Stop 10 }
{}

/// `not` before a blank is the word; blanks and line ends are passed over.
pub fn words_and_blanks_are_read_back()
    ensures word { (rest : List ℕ) (at : ℕ) → tokens_behind 0 at (codes "not" ++ 32 ∷ rest) ≡ placed at token.Not ∷ tokens_behind 0 (at + 3) (32 ∷ rest) }
    ensures blank { (rest : List ℕ) (at : ℕ) → tokens_behind 0 at (32 ∷ rest) ≡ tokens_behind 0 (at + 1) rest }
    ensures line { (rest : List ℕ) (at : ℕ) → tokens_behind 0 at (10 ∷ rest) ≡ tokens_behind 0 (at + 1) rest }
{}
