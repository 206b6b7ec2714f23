//! Lists of terms of any depth, built anew.
ghost use Rattle.std.specs.Prelude.{◌≡◌, ℕ, IfOk};
ghost use Rattle.scasp_syntax.specs.Tm.{Tm, var};
ghost use Rattle.scasp_syntax.specs.Values.{all_under};
ghost use Rattle.scasp_syntax.specs.View.{tm_of, tms_of};

use crate::term::{Term, Terms};
use scasp_name::{Memory, NameId};
use std::alloc::Global;
use std::mem;

/// What the variables stand for in terms that are built anew.
pub trait Values {
    ghost gives: { Self → ℕ → Tm };

    /// What variable `x` stands for.
    fn value_of(&self, alloc: Global, x: u64) -> Result<Term, Memory>
        ensures { IfOk result (λ value. tm_of value ≡ gives self.now x) };
}

/// Each variable stands for itself.
#[derive(Drop)]
pub(crate) struct Unchanged;

impl Values for Unchanged {
    ghost gives = { λ same x. var x };

    fn value_of(&self, _alloc: Global, x: u64) -> Result<Term, Memory> {
        Ok(Term::Var(x))
    }
}

/// A list that is being built and waits for the arguments of the term `name`: what is done before it, and what is left behind it.
#[derive(Drop)]
struct Outer<'a> {
    done: Terms,
    name: NameId,
    left: &'a [Term],
}

/// The terms with each variable replaced by what it stands for. It takes memory for the lists that wait for inner ones, and no
/// machine stack.
pub fn rebuilt<V: Values>(alloc: Global, terms: &[Term], values: &V) -> Result<Terms, Memory>
    ensures { IfOk result (λ made. made ≡ all_under (V.gives values.now) (tms_of terms.now)) }
{
    let mut outer = Vec::new(alloc);
    let mut made = Terms::with_room(alloc, terms.len())?;
    let mut rest = terms;
    loop {
        match rest.split_first() {
            Some((Term::Var(x), others)) => {
                made.push(values.value_of(alloc, *x)?)?;
                rest = others;
            }
            Some((Term::Num(value), others)) => {
                made.push(Term::Num(*value))?;
                rest = others;
            }
            Some((Term::App(name, args), others)) => {
                if args.len() == 0 {
                    made.push(Term::App(*name, Terms::new(alloc)))?;
                    rest = others;
                    continue;
                }
                let inner = Terms::with_room(alloc, args.len())?;
                let done = mem::replace(&mut made, inner);
                let (name, left) = (*name, others);
                outer.push(Outer { done, name, left })?;
                rest = args.as_slice();
            }
            None => {
                let Some(Outer { done, name, left }) = outer.pop() else {
                    return Ok(made);
                };
                let term = Term::App(name, mem::replace(&mut made, done));
                made.push(term)?;
                rest = left;
            }
        }
    }
}
