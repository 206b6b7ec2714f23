//! What is read of a text fits, and so is read back from its print.
ghost use Rattle.std.specs.Prelude.{◌≡◌, ℕ, ◌≤◌, true, List, length, None, Some, Ok};
ghost use Rattle.scasp_syntax.specs.declared.atom.Atom.{Atom};
ghost use Rattle.scasp_syntax.specs.declared.atom.Pred.{Pred};
ghost use Rattle.scasp_syntax.specs.declared.clause.Clause.{Clause};
ghost use Rattle.scasp_syntax.specs.declared.clause.Item.{Item};
ghost use Rattle.scasp_syntax.specs.declared.clause.Query.{Query};
ghost use Rattle.scasp_reader_terms.specs.Steps.{State};
ghost use Rattle.scasp_reader.specs.Bodies.Atoms.{atom};
ghost use Rattle.scasp_reader.specs.Bodies.Items.{item};
ghost use Rattle.scasp_reader.specs.Bodies.Bodies.{body};
ghost use Rattle.scasp_reader.specs.declared.texts.clauses.Part.{Part};
ghost use Rattle.scasp_reader.specs.declared.texts.clauses.Part.TheVariants as part;
ghost use Rattle.scasp_reader.specs.declared.texts.texts.Reading.{Reading};
ghost use Rattle.scasp_reader.specs.declared.texts.texts.TheConstants.{BYTE_LIMIT};
ghost use Rattle.scasp_reader.specs.Texts.Clauses.{clause};
ghost use Rattle.scasp_reader.specs.Texts.Texts.{read};
ghost use Rattle.scasp_reader.specs.Programs.Programs.{program_in};
ghost use Rattle.scasp_print_program.specs.Terms.{Style};
ghost use Rattle.scasp_print_program.specs.Programs.{program_text};
ghost use Rattle.scasp_law_program_text.specs.CompoundReadback.Styles.{IsTable};
ghost use Rattle.scasp_law_program_text.specs.CompoundReadback.Counting.{count_all};
ghost use Rattle.scasp_law_program_text.specs.ClauseReadback.Fitting.{atom_fits, item_fits, body_fits};
ghost use Rattle.scasp_law_program_text.specs.ClauseReadback.Counting.{count_item, count_body};
ghost use Rattle.scasp_law_program_text.specs.ClauseReadback.Parts.{abducible_fits, clause_fits, query_fits};
ghost use Rattle.scasp_law_program_text.specs.ClauseReadback.Texts.{text_fits};
ghost use Rattle.scasp_law_program_text.specs.TermFitting.Readers.{known, IsReader, Keeps, Covers};

/// An atom that is read fits in each style for what is then known, and its variables are numbered in the order of its text.
/// The reader stays one of a text.
pub fn atoms_that_are_read_fit()
    ensures fit { (s t : State) (a : Atom) (w : Style) → IsReader s → atom s ≡ Ok (a, t) → t.fault ≡ None → Covers w (known t) → atom_fits w a ≡ true }
    ensures counted { (s t : State) (a : Atom) (w : Style) → IsReader s → atom s ≡ Ok (a, t) → t.fault ≡ None → Covers w (known t)
        → count_all w (length s.variables) a.args ≡ Some (length t.variables) }
    ensures reader { (s t : State) (a : Atom) → IsReader s → atom s ≡ Ok (a, t) → IsReader t }
{}

/// So does an item.
pub fn items_that_are_read_fit()
    ensures fit { (s t : State) (i : Item) (w : Style) → IsReader s → item s ≡ Ok (i, t) → t.fault ≡ None → Covers w (known t) → item_fits w i ≡ true }
    ensures counted { (s t : State) (i : Item) (w : Style) → IsReader s → item s ≡ Ok (i, t) → t.fault ≡ None → Covers w (known t)
        → count_item w (length s.variables) i ≡ Some (length t.variables) }
    ensures reader { (s t : State) (i : Item) → IsReader s → item s ≡ Ok (i, t) → IsReader t }
{}

/// So does a body.
pub fn bodies_that_are_read_fit()
    ensures fit { (s t : State) (items : List Item) (w : Style) → IsReader s → body s ≡ Ok (items, t) → t.fault ≡ None → Covers w (known t) → body_fits w items ≡ true }
    ensures counted { (s t : State) (items : List Item) (w : Style) → IsReader s → body s ≡ Ok (items, t) → t.fault ≡ None → Covers w (known t)
        → count_body w (length s.variables) items ≡ Some (length t.variables) }
    ensures reader { (s t : State) (items : List Item) → IsReader s → body s ≡ Ok (items, t) → IsReader t }
{}

/// A clause, a query or a predicate that is read fits with the table that it leaves, and with each that keeps its names.
pub fn clauses_that_are_read_fit()
    ensures clause { (s t : State) (c : Clause) (names : List (List ℕ)) → IsReader s → clause s ≡ Ok (part.Clause c, t) → t.fault ≡ None → Keeps t.names names → clause_fits names c ≡ true }
    ensures query { (s t : State) (q : Query) (names : List (List ℕ)) → IsReader s → clause s ≡ Ok (part.Query q, t) → t.fault ≡ None → Keeps t.names names → query_fits names q ≡ true }
    ensures abducible { (s t : State) (p : Pred) (names : List (List ℕ)) → IsReader s → clause s ≡ Ok (part.Abducible p, t) → t.fault ≡ None → Keeps t.names names → abducible_fits names p ≡ true }
    ensures reader { (s t : State) (p : Part) → IsReader s → clause s ≡ Ok (p, t) → IsReader t }
{}

/// What is read of a text, with a table before, fits with the table behind, which is one.
pub fn texts_that_are_read_fit()
    ensures table { (names : List (List ℕ)) (bytes : List ℕ) (r : Reading) → read names bytes ≡ Ok r → IsTable names → IsTable r.names }
    ensures fit { (names : List (List ℕ)) (bytes : List ℕ) (r : Reading) → read names bytes ≡ Ok r → IsTable names → text_fits r.names r.abducibles r.clauses r.queries ≡ true }
{}

/// A program that is read is read again from its text, with the table that it left: the same clauses, queries,
/// predicates that may be assumed and names, where the text is within the limit of bytes.
pub fn programs_that_are_read_are_read_again()
    ensures { (names : List (List ℕ)) (bytes : List ℕ) (r : Reading) → program_in names bytes ≡ Ok r → IsTable names → length (program_text r.names r.abducibles r.clauses r.queries) ≤ BYTE_LIMIT
        → program_in r.names (program_text r.names r.abducibles r.clauses r.queries) ≡ Ok r }
{}
