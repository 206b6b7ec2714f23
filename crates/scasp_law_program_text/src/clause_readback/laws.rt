//! What is written of a clause is read back.
ghost use Rattle.std.specs.Prelude.{◌≡◌, ℕ, true, false, List, ◌++◌, map, length, ◌≤◌, codes, Some, Ok};
ghost use Rattle.scasp_syntax.specs.Denials.{with_denials};
ghost use Rattle.scasp_syntax.specs.declared.atom.Atom.{Atom};
ghost use Rattle.scasp_syntax.specs.declared.atom.Pred.{Pred};
ghost use Rattle.scasp_syntax.specs.declared.clause.Clause.{Clause};
ghost use Rattle.scasp_syntax.specs.declared.clause.Item.{Item};
ghost use Rattle.scasp_syntax.specs.declared.clause.Query.{Query};
ghost use Rattle.scasp_reader_terms.specs.Steps.{State};
ghost use Rattle.scasp_reader.specs.Bodies.Atoms.{atom};
ghost use Rattle.scasp_reader.specs.Bodies.Items.{item};
ghost use Rattle.scasp_reader.specs.Bodies.Bodies.{body};
ghost use Rattle.scasp_reader.specs.declared.texts.clauses.Part.TheVariants as part;
ghost use Rattle.scasp_reader.specs.declared.texts.texts.TheConstants.{BYTE_LIMIT};
ghost use Rattle.scasp_reader.specs.Texts.Clauses.{clause};
ghost use Rattle.scasp_reader.specs.Texts.Texts.{read};
ghost use Rattle.scasp_reader.specs.Programs.Programs.{program_in};
ghost use Rattle.scasp_print_program.specs.Terms.{Style, atom_text};
ghost use Rattle.scasp_print_program.specs.Items.{item_text, items_text};
ghost use Rattle.scasp_print_program.specs.Abducibles.{abducible_text};
ghost use Rattle.scasp_print_program.specs.Programs.{rule_variables, query_variable, clause_text, query_text, written, program_text};
ghost use Rattle.scasp_law_program_text.specs.TermReadback.Reading.{EndsTerm};
ghost use Rattle.scasp_law_program_text.specs.CompoundReadback.Styles.{IsTable, IsStyle};
ghost use Rattle.scasp_law_program_text.specs.CompoundReadback.Counting.{count_all};
ghost use Rattle.scasp_law_program_text.specs.CompoundReadback.Reading.{Reads};
ghost use Rattle.scasp_law_program_text.specs.ClauseReadback.Fitting.{atom_fits, item_fits, body_fits};
ghost use Rattle.scasp_law_program_text.specs.ClauseReadback.Counting.{count_item, count_body};
ghost use Rattle.scasp_law_program_text.specs.ClauseReadback.Reading.{EndsItem};
ghost use Rattle.scasp_law_program_text.specs.ClauseReadback.Parts.{abducible_fits, clause_fits, query_fits, ReadsPart};
ghost use Rattle.scasp_law_program_text.specs.ClauseReadback.Texts.{text_fits, lines_text, reading};

/// The text of an atom is read as this atom, with its sign and its arguments.
pub fn atoms_are_read_back()
    ensures { (w : Style) (a : Atom) (n m : ℕ) (s : State) (rest : List ℕ) → IsStyle w → atom_fits w a ≡ true → count_all w n a.args ≡ Some m → EndsTerm rest
        → Reads w n m atom (atom_text w a) a s rest }
{}

/// What is written behind an item may stand there: a comma, or a stop at a line's end.
pub fn ends_of_items_are_written()
    ensures comma { (i : Item) (rest : List ℕ) → EndsItem i (codes ", " ++ rest) }
    ensures stop { (i : Item) (rest : List ℕ) → EndsItem i (codes ".\n" ++ rest) }
{}

/// The text of an item is read as this item: a literal, an equation, a disequation or a linear item.
pub fn items_are_read_back()
    ensures { (w : Style) (i : Item) (n m : ℕ) (s : State) (rest : List ℕ) → IsStyle w → item_fits w i ≡ true → count_item w n i ≡ Some m → EndsItem i rest
        → Reads w n m item (item_text w i) i s rest }
{}

/// A body is read back, before the stop at its line's end.
pub fn bodies_are_read_back()
    ensures { (w : Style) (items : List Item) (n m : ℕ) (s : State) (rest : List ℕ) → IsStyle w → body_fits w items ≡ true → count_body w n items ≡ Some m
        → Reads w n m body (items_text w true items) items s (codes ".\n" ++ rest) }
{}

/// The text of a clause, with the end of its line, is read as this clause: a fact, a rule or a denial.
pub fn clauses_are_read_back()
    ensures { (names : List (List ℕ)) (c : Clause) (s : State) (rest : List ℕ) → IsTable names → clause_fits names c ≡ true
        → ReadsPart names clause (clause_text names c) (part.Clause c) (rule_variables 0 c.vars) s rest }
{}

/// The text of a query, with the end of its line, is read as this query, with the names of its variables.
pub fn queries_are_read_back()
    ensures { (names : List (List ℕ)) (q : Query) (s : State) (rest : List ℕ) → IsTable names → query_fits names q ≡ true
        → ReadsPart names clause (query_text names q) (part.Query q) (map (query_variable names) q.names) s rest }
{}

/// The line of a predicate that may be assumed is read as this predicate.
pub fn abducibles_are_read_back()
    ensures { (names : List (List ℕ)) (p : Pred) (s : State) (rest : List ℕ) → IsTable names → p.minus ≡ false → abducible_fits names p ≡ true
        → ReadsPart names clause (abducible_text names p) (part.Abducible p) (rule_variables 0 p.arity) s rest }
{}

/// The text of predicates that may be assumed, of clauses and of queries is read as these, where it is within the limit of bytes.
pub fn texts_are_read_back()
    ensures { (names : List (List ℕ)) (abducibles : List Pred) (clauses : List Clause) (queries : List Query) → IsTable names → text_fits names abducibles clauses queries ≡ true
        → length (lines_text names abducibles clauses queries) ≤ BYTE_LIMIT
        → read names (lines_text names abducibles clauses queries) ≡ Ok (reading abducibles clauses queries names) }
{}

/// The text of a program with its generated denials, which leaves these out, is read as this program, where it is within the limit of bytes.
pub fn programs_are_read_back()
    ensures written { (clauses : List Clause) (queries : List Query) → written (with_denials clauses queries) queries ≡ clauses }
    ensures read { (names : List (List ℕ)) (abducibles : List Pred) (clauses : List Clause) (queries : List Query) → IsTable names → text_fits names abducibles clauses queries ≡ true
        → length (program_text names abducibles (with_denials clauses queries) queries) ≤ BYTE_LIMIT
        → program_in names (program_text names abducibles (with_denials clauses queries) queries) ≡ Ok (reading abducibles (with_denials clauses queries) queries names) }
{}
