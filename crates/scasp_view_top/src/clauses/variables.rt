//! The variables of a clause in words.
ghost use Rattle.std.specs.Prelude.{◌≡◌, IfOk};
ghost use Rattle.scasp_cert.specs.Text.Terms.{var_text};
ghost use Rattle.scasp_print_program.specs.Programs.{rule_variables};

use scasp_list::{Memory, Sequence};
use scasp_print_program::VariableText;
use scasp_print_words::{put, put_number};
use std::alloc::Global;

/// `V0`, `V1`, ..
fn rule_variable(alloc: Global, var: u64) -> Result<VariableText, Memory>
    ensures { IfOk result (λ text. text ≡ var_text var) }
{
    let mut text = Vec::new(alloc);
    put(&mut text, "V")?;
    put_number(&mut text, var)?;
    Ok(VariableText::new(text))
}

/// The texts of so many variables of a clause.
pub(crate) fn rule_variables(alloc: Global, count: u64) -> Result<Sequence<VariableText>, Memory>
    ensures { IfOk result (λ texts. texts ≡ rule_variables 0 count) }
{
    let mut texts = Sequence::new(alloc);
    for var in 0..count {
        texts.push(rule_variable(alloc, var)?)?;
    }
    Ok(texts)
}
