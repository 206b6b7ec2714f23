//! What is written of a linear item is read back as this item.
ghost use Rattle.std.specs.Prelude.{◌≡◌, ℕ, true, List, ◌++◌, length, codes, Some};
ghost use Rattle.scasp_syntax.specs.WellFormed.{is_item_below};
ghost use Rattle.scasp_syntax.specs.declared.clause.Item.TheVariants as form;
ghost use Rattle.scasp_syntax.specs.declared.clause.Lin.{Lin};
ghost use Rattle.scasp_reader_terms.specs.Steps.{State};
ghost use Rattle.scasp_reader.specs.Bodies.Items.{item};
ghost use Rattle.scasp_print_program.specs.Terms.{Style};
ghost use Rattle.scasp_print_program.specs.Items.{linear_text};
ghost use Rattle.scasp_law_program_text.specs.CompoundReadback.Styles.{IsStyle};
ghost use Rattle.scasp_law_program_text.specs.CompoundReadback.Reading.{Reads};
ghost use Rattle.scasp_law_program_text.specs.LinearReadback.Counting.{count_variables};
ghost use Rattle.scasp_law_program_text.specs.LinearReadback.Ending.{EndsExpression};

/// The text of a linear item is read as this item, with the variables that it lists and its row, before what may
/// stand behind an expression. Its row is in normal form, and its variables have texts, ascend and hold those of the
/// row, as in every program.
pub fn linear_items_are_read_back()
    ensures { (w : Style) (l : Lin) (n m : ℕ) (s : State) (rest : List ℕ) → IsStyle w → is_item_below (length w.variables) (form.Linear l) ≡ true → count_variables w n l.vars ≡ Some m
        → EndsExpression rest → Reads w n m item (linear_text w l) (form.Linear l) s rest }
{}

/// What is written behind an item may stand behind an expression: a comma, or a stop at a line's end.
pub fn ends_of_expressions_are_written()
    ensures comma { (rest : List ℕ) → EndsExpression (codes "," ++ rest) }
    ensures stop { (rest : List ℕ) → EndsExpression (codes ".\n" ++ rest) }
{}
