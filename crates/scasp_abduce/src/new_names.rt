//! New names.
ghost use Rattle.std.specs.Prelude.{◌≡◌, length, string_bytes, IfOk};
ghost use Rattle.scasp_abduce.specs.NewNames as spec;

use crate::taken_names::TakenNames;
use scasp_list::Memory;
use scasp_name::{NameId, Names};
use std::alloc::Global;

/// The text with `no ` in front.
fn negated(alloc: Global, text: &str) -> Result<String, Memory>
    ensures { IfOk result (λ negation. string_bytes negation ≡ spec.negated text.now) }
{
    let mut negation = String::from_str(alloc, "no ")?;
    negation.push_str(text)?;
    Ok(negation)
}

/// The text of a name; of a name that the table lacks the empty one.
pub(crate) fn text_of(alloc: Global, names: &Names, name: NameId) -> Result<String, Memory>
    ensures { IfOk result (λ text. string_bytes text ≡ spec.text_of names.now name) }
{
    if name.place() < names.len() {
        Ok(String::from_str(alloc, names.text(name))?)
    } else {
        Ok(String::new(alloc))
    }
}

/// The name of the text with `no ` in front, at least once and as often as needed for a name that is not taken.
pub(crate) fn new_name(
    alloc: Global,
    taken: &TakenNames,
    names: &mut Names,
    mut text: String,
) -> Result<NameId, Memory>
    ensures { IfOk result (λ name. record { names = names.new; name = name } ≡ spec.new_name taken.now (length taken.now) names.old (string_bytes text)) }
{
    loop {
        text = negated(alloc, text.as_str())?;
        let name = names.intern(text.as_str())?;
        // The texts of the table are distinct, so this is the place of the text.
        let _count = names.len();
        if !taken.contains(name) {
            return Ok(name);
        }
    }
}
