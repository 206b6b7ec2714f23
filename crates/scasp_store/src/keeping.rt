//! Numbers that given constraints leave to variables, kept from one question to the next.
ghost use Rattle.std.specs.Prelude.{◌≡◌, IfOk, List, OnOk};
ghost use Rattle.scasp_store.specs.Inside.Fixing.{Leaves, Says};
ghost use Rattle.scasp_store.specs.Inside.Open.{GoodOf, SameMarks};
ghost use Rattle.scasp_syntax.specs.declared.con.Con.{Con as ThisCon};
ghost use Rattle.scasp_unify.specs.declared.bindings.Binding.{Binding as ThisBinding};

use crate::failing::tells;
use crate::fixing::left_over;
use crate::opening::is_new;
use crate::rest::Rest;
use scasp_list::Memory;
use scasp_syntax::Con;
use scasp_unify::Binding;
use std::alloc::Global;

/// The variable is read as this number from now on, if an open constraint says that it is one.
fn fix(alloc: Global, given: &[Con], binding: Binding, rest: &mut Rest) -> Result<(), Memory>
    ensures good { OnOk result ((bs : List ThisBinding) (c : ThisCon) → Leaves rest.old.reading.now c binding → Says given.now c → GoodOf bs given.now rest.old → GoodOf bs given.now rest.new) }
    ensures places { rest.new.places ≡ rest.old.places }
    ensures marks { SameMarks rest.old rest.new }
{
    if !tells(&rest.reading, given, rest.places.as_slice(), binding.x) {
        return Ok(());
    }
    if !is_new(alloc, &rest.reading, &binding)? {
        return Ok(());
    }
    rest.fixed.push(binding.x)?;
    rest.reading.push(binding)?;
    Ok(())
}

/// Fixes what the constraint leaves to a variable.
fn fix_by(alloc: Global, given: &[Con], constraint: &Con, rest: &mut Rest) -> Result<(), Memory>
    ensures good { OnOk result ((bs : List ThisBinding) → Says given.now constraint.now → GoodOf bs given.now rest.old → GoodOf bs given.now rest.new) }
    ensures places { rest.new.places ≡ rest.old.places }
    ensures marks { SameMarks rest.old rest.new }
{
    match left_over(alloc, &rest.reading, constraint)? {
        Some(binding) => fix(alloc, given, binding, rest),
        None => Ok(()),
    }
}

/// Fixes what the constraint at the place leaves to a variable, if there is one.
pub(crate) fn fix_at(
    alloc: Global,
    given: &[Con],
    place: usize,
    rest: &mut Rest,
) -> Result<(), Memory>
    ensures good { OnOk result ((bs : List ThisBinding) → GoodOf bs given.now rest.old → GoodOf bs given.now rest.new) }
    ensures places { rest.new.places ≡ rest.old.places }
    ensures marks { SameMarks rest.old rest.new }
{
    match given.get(place) {
        Some(constraint) => {
            fix_by(alloc, given, constraint, rest)?;
            Ok(())
        }
        None => Ok(()),
    }
}
