//! Hints and their steps.
ghost use Rattle.std.specs.Prelude.{◌≡◌, ◌++◌, true, OnOk};
ghost use Rattle.scasp_cert.specs.Text.Hints as spec;

use scasp_name::Memory;
use scasp_num::{Step, StepLists, Steps};
use scasp_print_words::{put, put_integer, put_number, put_separator};
use scasp_syntax::Hint;

#[tactic(auto, unfolding(scasp_cert::specs::Text::Hints::step_text))]
fn put_step(out: &mut Vec<u8>, step: &Step) -> Result<(), Memory>
    ensures { OnOk result (out.new.items ≡ out.old.items ++ spec.step_text step.now) }
{
    put_integer(out, step.a)?;
    put(out, "*")?;
    put_number(out, step.p)?;
    put(out, "+")?;
    put_integer(out, step.b)?;
    put(out, "*")?;
    put_number(out, step.q)
}

fn put_steps(out: &mut Vec<u8>, steps: &Steps) -> Result<(), Memory>
    ensures { OnOk result (out.new.items ≡ out.old.items ++ spec.steps_text true steps.now) }
{
    let mut is_first = true;
    for step in steps.as_slice() {
        put_separator(out, is_first, ",")?;
        put_step(out, step)?;
        is_first = false;
    }
    Ok(())
}

fn put_step_lists(out: &mut Vec<u8>, lists: &StepLists) -> Result<(), Memory>
    ensures { OnOk result (out.new.items ≡ out.old.items ++ spec.step_lists_text true lists.now) }
{
    let mut is_first = true;
    for steps in lists.as_slice() {
        put_separator(out, is_first, ";")?;
        put_steps(out, steps)?;
        is_first = false;
    }
    Ok(())
}

/// Puts a hint at the end.
pub fn put_hint(out: &mut Vec<u8>, hint: &Hint) -> Result<(), Memory>
    ensures { OnOk result (out.new.items ≡ out.old.items ++ spec.hint_text hint.now) }
{
    match hint {
        Hint::Terms => put(out, "terms"),
        Hint::Rows(steps) => {
            put(out, "rows [")?;
            put_steps(out, steps)?;
            put(out, "]")
        }
        Hint::Same(number, lists) => {
            put(out, "same ")?;
            put_number(out, *number)?;
            put(out, " [")?;
            put_step_lists(out, lists)?;
            put(out, "]")
        }
    }
}
