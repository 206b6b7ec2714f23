//! Terms and atoms as lists of numbers, by which tables find them.
ghost use Rattle.std.specs.Prelude.{◌≡◌, [], ◌∷◌, ◌++◌, IfOk, OnOk};
ghost use Rattle.scasp_tables.specs.Inside.Keys.{words, key_of, keys_of, atom_key};
ghost use Rattle.scasp_syntax.specs.Tm.{num};
ghost use Rattle.scasp_syntax.specs.View.{tm_of, tms_of};

use scasp_list::Memory;
use scasp_num::Rat;
use scasp_syntax::{Atom, Term};
use std::alloc::Global;

const VARIABLE: u64 = 0;

const NUMBER: u64 = 1;

const NAME: u64 = 2;

const END: u64 = 3;

/// Puts the number at the end, as its part above 2^64 and the rest.
fn push_words(key: &mut Vec<u64>, n: u128) -> Result<(), Memory>
    ensures { OnOk result (key.new.items ≡ key.old.items ++ words n) }
{
    key.push((n / 18_446_744_073_709_551_616) as u64)?;
    key.push((n % 18_446_744_073_709_551_616) as u64)?;
    Ok(())
}

/// Puts a mark and a number at the end.
fn push_marked(key: &mut Vec<u64>, mark: u64, n: u64) -> Result<(), Memory>
    ensures { OnOk result (key.new.items ≡ key.old.items ++ mark ∷ n ∷ []) }
{
    key.push(mark)?;
    key.push(n)?;
    Ok(())
}

/// Puts the key of a rational number at the end.
fn push_number(key: &mut Vec<u64>, value: &Rat) -> Result<(), Memory>
    ensures { OnOk result (key.new.items ≡ key.old.items ++ key_of (num value.now)) }
{
    key.push(NUMBER)?;
    key.push(u64::from(value.num() < 0))?;
    push_words(key, value.num().unsigned_abs())?;
    push_words(key, value.den().unsigned_abs())
}

/// Puts the key of a list of terms at the end. It takes memory for the lists that are still to be seen, and no machine stack.
fn push_terms(alloc: Global, key: &mut Vec<u64>, terms: &[Term]) -> Result<(), Memory>
    ensures { OnOk result (key.new.items ≡ key.old.items ++ keys_of (tms_of terms.now)) }
{
    let mut unseen: Vec<&[Term]> = Vec::new(alloc);
    let mut rest = terms;
    loop {
        match rest.split_first() {
            Some((Term::Var(x), others)) => {
                push_marked(key, VARIABLE, *x)?;
                rest = others;
            }
            Some((Term::Num(value), others)) => {
                push_number(key, value)?;
                rest = others;
            }
            Some((Term::App(name, args), others)) => {
                push_marked(key, NAME, name.place())?;
                unseen.push(others)?;
                rest = args.as_slice();
            }
            None => {
                key.push(END)?;
                let Some(outer) = unseen.pop() else {
                    return Ok(());
                };
                rest = outer;
            }
        }
    }
}

/// The key of a term.
pub(crate) fn term_key(alloc: Global, term: &Term) -> Result<Vec<u64>, Memory>
    ensures { IfOk result (λ key. key.items ≡ key_of (tm_of term.now)) }
{
    let mut key = Vec::new(alloc);
    match term {
        Term::Var(x) => push_marked(&mut key, VARIABLE, *x)?,
        Term::Num(value) => push_number(&mut key, value)?,
        Term::App(name, args) => {
            push_marked(&mut key, NAME, name.place())?;
            push_terms(alloc, &mut key, args.as_slice())?;
        }
    }
    Ok(key)
}

/// The key of an atom.
pub(crate) fn atom_key(alloc: Global, atom: &Atom) -> Result<Vec<u64>, Memory>
    ensures { IfOk result (λ key. key.items ≡ atom_key atom.now) }
{
    let mut key = Vec::new(alloc);
    key.push(u64::from(atom.minus))?;
    key.push(atom.name.place())?;
    push_terms(alloc, &mut key, atom.args.as_slice())?;
    Ok(key)
}
