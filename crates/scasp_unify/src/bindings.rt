//! Terms with their variables replaced by what bindings say.
ghost use Rattle.std.specs.Prelude.{◌≡◌, ◌<◌, length, IfOk, IfSome, MatchOption};
ghost use Rattle.scasp_syntax.specs.Tm.{var};
ghost use Rattle.scasp_syntax.specs.Values.{all_under, under};
ghost use Rattle.scasp_syntax.specs.View.{tm_of, tms_of};
ghost use Rattle.scasp_unify.specs.Heads.{head_resolved};
ghost use Rattle.scasp_unify.specs.Solving.{sub_of};

use scasp_list::Memory;
use scasp_name::NameId;
use scasp_num::Rat;
use scasp_syntax::{Term, Terms};
use std::alloc::Global;
use std::mem;

/// A variable and the term that it stands for.
#[derive(Debug, Drop)]
pub struct Binding {
    pub x: u64,
    pub term: Term,
}

/// How a term begins that bindings resolve.
#[derive(Clone, Copy)]
enum Head<'a> {
    /// It is this variable, which nothing binds.
    Var(u64),
    Num(Rat),
    /// It has this name, and these arguments, which these bindings resolve.
    Name(NameId, &'a Terms, &'a [Binding]),
}

/// A list that is being made and waits for the arguments of the term `name`: what is done before it, and what is left behind
/// it, which these bindings resolve.
#[derive(Drop)]
struct Outer<'a> {
    done: Terms,
    name: NameId,
    left: &'a [Term],
    bindings: &'a [Binding],
}

/// The first binding of the variable, and the bindings behind it.
#[tactic(auto, using(crate::proofs::ResolveLemmas::none_bound, crate::proofs::ResolveLemmas::first_bound, crate::proofs::ResolveLemmas::other_bound))]
fn first_of<'a>(bindings: &'a [Binding], x: u64) -> Option<(&'a Binding, &'a [Binding])>
    ensures value { MatchOption result (sub_of bindings.now x ≡ var x) (λ found. sub_of bindings.now x ≡ under (sub_of found.1.now) (tm_of found.0.now.term)) }
    ensures fewer { IfSome result (λ found. length found.1.now < length bindings.now) }
{
    let mut left = bindings;
    'bindings: loop {
        match left.split_first() {
            Some((binding, later)) => {
                if binding.x == x {
                    return Some((binding, later));
                }
                left = later;
            }
            None => return None,
        }
    }
}

/// How the term begins that the bindings resolve, of which each may speak of variables that later ones bind.
fn head_of<'a>(term: &'a Term, bindings: &'a [Binding]) -> Head<'a>
    ensures { head_resolved result ≡ under (sub_of bindings.now) (tm_of term.now) }
{
    let mut reached = term;
    let mut left = bindings;
    'bindings: loop {
        match reached {
            Term::Var(x) => match first_of(left, *x) {
                Some((binding, later)) => {
                    reached = &binding.term;
                    left = later;
                }
                None => return Head::Var(*x),
            },
            Term::Num(value) => return Head::Num(*value),
            Term::App(name, args) => return Head::Name(*name, args, left),
        }
    }
}

/// The terms with their variables replaced by what the bindings say. It takes memory for the lists that wait for inner ones,
/// and no machine stack.
fn resolve_all(alloc: Global, terms: &[Term], bindings: &[Binding]) -> Result<Terms, Memory>
    ensures { IfOk result (λ made. made ≡ all_under (sub_of bindings.now) (tms_of terms.now)) }
{
    let mut outer = Vec::new(alloc);
    let mut made = Terms::with_room(alloc, terms.len())?;
    let mut rest = terms;
    let mut known = bindings;
    'lists: loop {
        match rest.split_first() {
            Some((term, left)) => match head_of(term, known) {
                Head::Var(x) => {
                    made.push(Term::Var(x))?;
                    rest = left;
                }
                Head::Num(value) => {
                    made.push(Term::Num(value))?;
                    rest = left;
                }
                Head::Name(name, args, later) => {
                    if args.len() == 0 {
                        made.push(Term::App(name, Terms::new(alloc)))?;
                        rest = left;
                        continue;
                    }
                    let inner = Terms::with_room(alloc, args.len())?;
                    let done = mem::replace(&mut made, inner);
                    let bindings = known;
                    outer.push(Outer {
                        done,
                        name,
                        left,
                        bindings,
                    })?;
                    rest = args.as_slice();
                    known = later;
                }
            },
            None => {
                let Some(
                    Outer {
                        done,
                        name,
                        left,
                        bindings,
                    },
                ) = outer.pop()
                else {
                    return Ok(made);
                };
                let args = mem::replace(&mut made, done);
                made.push(Term::App(name, args))?;
                rest = left;
                known = bindings;
            }
        }
    }
}

/// The term with its variables replaced by what the bindings say, of which each may speak of variables that later ones
/// bind. It takes memory for what is still to be made, and no machine stack.
pub fn resolve(alloc: Global, term: &Term, bindings: &[Binding]) -> Result<Term, Memory>
    ensures { IfOk result (λ made. tm_of made ≡ under (sub_of bindings.now) (tm_of term.now)) }
{
    match head_of(term, bindings) {
        Head::Var(x) => Ok(Term::Var(x)),
        Head::Num(value) => Ok(Term::Num(value)),
        Head::Name(name, args, later) => { Ok(Term::App(name, resolve_terms(alloc, args, later)?)) }
    }
}

/// The terms with their variables replaced by what the bindings say, with memory as `resolve`.
pub fn resolve_terms(alloc: Global, terms: &Terms, bindings: &[Binding]) -> Result<Terms, Memory>
    ensures { IfOk result (λ made. made ≡ all_under (sub_of bindings.now) terms.now) }
{
    resolve_all(alloc, terms.as_slice(), bindings)
}
