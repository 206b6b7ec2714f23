//! Whether what is left of a list has a valuation, asked in place of the list.
ghost use Rattle.std.specs.Prelude.{◌≡◌, ◌++◌, ℕ, IfOk, IfSome, List, false, true};
ghost use Rattle.scasp_hint.specs.AskedRows.{RowsNormal};
ghost use Rattle.scasp_hint.specs.Satisfying.{sat};
ghost use Rattle.scasp_law_parts.specs.Bound.{equations};
ghost use Rattle.scasp_store.specs.Inside.Asking.{are_counted, read_by};
ghost use Rattle.scasp_store.specs.Inside.Open.{IsContrary, IsGood, opened};
ghost use Rattle.scasp_syntax.specs.declared.con.Con.{Con as ThisCon};
ghost use Rattle.scasp_unify.specs.Solving.{sub_of};
ghost use Rattle.scasp_unify.specs.declared.bindings.Binding.{Binding as ThisBinding};

use crate::asking::{counts_all, has_row, is_askable, note_rows, read_all};
use crate::fixing::tested_by;
use scasp_bound::Bound;
use scasp_list::Memory;
use scasp_syntax::Con;
use std::alloc::Global;

/// As `answer`, where the list reads so.
fn answer_by(
    alloc: Global,
    bound: &Bound,
    list: &[Con],
    read: &[Con],
) -> Result<Option<bool>, Memory>
    requires normal { RowsNormal list.now }
    requires read { read.now ≡ read_by (sub_of bound.now.now) list.now }
    ensures { (bs : List ThisBinding) (cs more : List ThisCon) (fs ps : List ℕ) → IsGood bs cs bound.now.now fs ps → list.now ≡ opened cs ps ++ more
        → IfOk result (λ found. IfSome found (λ answer. answer ≡ sat (equations bs ++ (cs ++ more)))) }
{
    if !is_askable(alloc, bound, list, read)? {
        return Ok(None);
    }
    tested_by(alloc, read)
}

/// Whether the bindings and constraints have a valuation, of which this list is what is left where the settled ones are
/// left out; None where the whole list is to be asked.
pub(crate) fn answer(alloc: Global, bound: &Bound, list: &[Con]) -> Result<Option<bool>, Memory>
    ensures { (bs : List ThisBinding) (cs more : List ThisCon) (fs ps : List ℕ) → IsGood bs cs bound.now.now fs ps → list.now ≡ opened cs ps ++ more
        → IfOk result (λ found. IfSome found (λ answer. answer ≡ sat (equations bs ++ (cs ++ more)))) }
{
    note_rows(list);
    let read = read_all(alloc, bound, list)?;
    answer_by(alloc, bound, list, read.as_slice())
}

/// Whether it is known of each row of the list that its variables count as numbers.
fn is_counted(alloc: Global, bound: &Bound, list: &[Con]) -> Result<bool, Memory>
    ensures { IfOk result (λ answer. answer ≡ true → are_counted (sub_of bound.now.now) list.now ≡ true) }
{
    if !has_row(list) {
        return Ok(true);
    }
    counts_all(alloc, bound, list)
}

/// Whether it is known that contrary bindings and constraints have no valuation with others, of which this list is what is
/// left where the settled ones are left out.
pub(crate) fn refuses(alloc: Global, bound: &Bound, list: &[Con]) -> Result<bool, Memory>
    ensures { (bs : List ThisBinding) (cs more : List ThisCon) (ps : List ℕ) → IsContrary bs cs bound.now.now ps → list.now ≡ opened cs ps ++ more
        → IfOk result (λ answer. answer ≡ true → sat (equations bs ++ (cs ++ more)) ≡ false) }
{
    let answer = is_counted(alloc, bound, list)?;
    Ok(answer)
}
