//! How many items the flat body of a rule has. It is counted, and not made.
ghost use Rattle.std.specs.Prelude.{◌≡◌, ◌+◌, ◌++◌, nat_eq, length, IfOk};
ghost use Rattle.std.specs.List.{list_any};
ghost use Rattle.scasp_checker_rules.specs.LineFaults.{items_of};
ghost use Rattle.scasp_syntax.specs.Flat.{flat_body, unseen};
ghost use Rattle.scasp_syntax.specs.Programs.{numbered};

use scasp_list::Memory;
use scasp_syntax::{Item, Items, Lin, Program, VarList};
use std::alloc::Global;

fn is_among(numbers: &[u64], x: u64) -> bool
    ensures { result ≡ list_any (nat_eq x) numbers.now }
{
    numbers.contains(&x)
}

/// The count, with the variables that are not among those seen.
fn with_unseen(count: u64, vars: &[u64], seen: &[u64]) -> Result<u64, Memory>
    ensures { IfOk result (λ made. made ≡ count + length (unseen seen.now vars.now)) }
{
    let mut made = count;
    for x in vars {
        if !is_among(seen, *x) {
            made = made.checked_add(1).ok_or(Memory)?;
        }
    }
    Ok(made)
}

/// The count, with the tests of a linear item; `seen` has the variables that were tested to be numbers.
fn with_linear(count: u64, linear: &Lin, seen: &mut VarList) -> Result<u64, Memory>
    ensures seen { IfOk result (λ made. seen.new ≡ seen.old ++ linear.now.vars) }
    ensures count { IfOk result (λ made. made ≡ count + length (unseen seen.old linear.now.vars) + 1) }
{
    let made = with_unseen(count, linear.vars.as_slice(), seen.as_slice())?;
    for x in linear.vars.as_slice() {
        seen.push(*x)?;
    }
    made.checked_add(1).ok_or(Memory)
}

/// How many items the flat body that these items are has.
fn flat_count(alloc: Global, body: &Items) -> Result<u64, Memory>
    ensures { IfOk result (λ count. count ≡ length (flat_body body.now)) }
{
    let mut count = 0u64;
    let mut seen = VarList::new(alloc);
    for item in body.as_slice() {
        count = match item {
            Item::Call(_) | Item::Equal(_, _) | Item::Differ(_, _) => {
                count.checked_add(1).ok_or(Memory)?
            }
            Item::Linear(linear) => with_linear(count, linear, &mut seen)?,
        };
    }
    Ok(count)
}

/// How many items the rule of this number has; none where there is no such rule.
pub(crate) fn item_count(alloc: Global, program: &Program, rule: u64) -> Result<u64, Memory>
    ensures { IfOk result (λ count. count ≡ length (items_of (numbered program.now.clauses rule))) }
{
    match program.clause(rule) {
        None => Ok(0),
        Some(clause) => flat_count(alloc, &clause.body),
    }
}
