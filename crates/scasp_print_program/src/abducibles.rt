//! The clauses that say which predicates may be assumed.
ghost use Rattle.std.specs.Prelude.{◌≡◌, ◌++◌, true, OnOk};
ghost use Rattle.scasp_print_program.specs.Abducibles as spec;

use crate::clauses::put_rule_variable;
use scasp_list::Memory;
use scasp_name::Names;
use scasp_print_words::{put, put_name, put_separator};
use scasp_syntax::Pred;

/// Puts so many variables at the end, with commas between.
fn put_variables(out: &mut Vec<u8>, count: u64) -> Result<(), Memory>
    ensures { OnOk result (out.new.items ≡ out.old.items ++ spec.variables_text true 0 count) }
{
    for var in 0..count {
        put_separator(out, var == 0, ",")?;
        put_rule_variable(out, var)?;
    }
    Ok(())
}

/// Puts so many variables in brackets at the end; nothing where there are none.
fn put_parameters(out: &mut Vec<u8>, count: u64) -> Result<(), Memory>
    ensures { OnOk result (out.new.items ≡ out.old.items ++ spec.parameters_text count) }
{
    if count == 0 {
        return Ok(());
    }
    put(out, "(")?;
    put_variables(out, count)?;
    put(out, ")")
}

/// Puts the clause of a predicate that may be assumed and the line's end at the end.
#[tactic(auto, unfolding(crate::specs::Abducibles::abducible_text))]
pub fn put_abducible(out: &mut Vec<u8>, names: &Names, pred: Pred) -> Result<(), Memory>
    ensures { OnOk result (out.new.items ≡ out.old.items ++ spec.abducible_text names.now pred) }
{
    put(out, "#abducible ")?;
    put_name(out, names, pred.name)?;
    put_parameters(out, pred.arity)?;
    put(out, ".\n")
}
