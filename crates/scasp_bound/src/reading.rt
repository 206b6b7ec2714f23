//! Terms as bindings read them, by an index of the bindings.
ghost use Rattle.std.specs.Prelude.{◌≡◌, IfOk};
ghost use Rattle.scasp_syntax.specs.Values.{all_under, under};
ghost use Rattle.scasp_syntax.specs.View.{tm_of, tms_of};
ghost use Rattle.scasp_bound.specs.Inside.Places.{IsRight};
ghost use Rattle.scasp_bound.specs.Inside.Reading.{behind, head_read};

use crate::places::{Place, binding_at, first_after};
use scasp_list::Memory;
use scasp_name::NameId;
use scasp_num::Rat;
use scasp_syntax::{Term, Terms};
use scasp_unify::Binding;
use std::alloc::Global;
use std::mem;

/// How a term begins that is read.
#[derive(Clone, Copy)]
pub(crate) enum Head<'a> {
    /// It is this variable, which none of the bindings from there on binds.
    Var(u64),
    Num(Rat),
    /// It has this name, and these arguments.
    Name(NameId, Piece<'a>),
}

/// Terms, which the bindings from a place on read.
#[derive(Clone, Copy)]
pub(crate) struct Piece<'a> {
    pub(crate) terms: &'a [Term],
    pub(crate) from: usize,
}

/// A list that is being made and waits for the arguments of the term `name`: what is done before it, and what is left behind
/// it, which the bindings from a place on read.
#[derive(Drop)]
struct Outer<'a> {
    done: Terms,
    name: NameId,
    left: &'a [Term],
    from: usize,
}

/// How the term begins that the bindings from a place on read, of which each may speak of variables that later ones bind.
#[tactic(auto, using(crate::proofs::ReadLemmas::read_none, crate::proofs::ReadLemmas::read_next, crate::proofs::ReadLemmas::read_gap))]
pub(crate) fn head_of<'a>(
    bindings: &'a [Option<Binding>],
    places: &[Option<Place>],
    is_whole: bool,
    from: usize,
    term: &'a Term,
) -> Head<'a>
    requires { IsRight is_whole bindings.now places.now }
    ensures { head_read bindings.now result ≡ under (behind from bindings.now) (tm_of term.now) }
{
    let mut reached = term;
    let mut next = from;
    'bindings: loop {
        match reached {
            Term::Var(x) => {
                let Some(at) = first_after(bindings, places, is_whole, next, *x) else {
                    return Head::Var(*x);
                };
                let Some(binding) = binding_at(bindings, at) else {
                    return Head::Var(*x);
                };
                reached = &binding.term;
                next = at + 1;
            }
            Term::Num(value) => return Head::Num(*value),
            Term::App(name, args) => {
                let terms = args.as_slice();
                return Head::Name(*name, Piece { terms, from: next });
            }
        }
    }
}

/// The terms as the bindings from a place on read them. It takes memory for the lists that wait for inner ones, and no
/// machine stack.
pub(crate) fn resolve_all(
    alloc: Global,
    bindings: &[Option<Binding>],
    places: &[Option<Place>],
    is_whole: bool,
    from: usize,
    terms: &[Term],
) -> Result<Terms, Memory>
    requires { IsRight is_whole bindings.now places.now }
    ensures { IfOk result (λ made. made ≡ all_under (behind from bindings.now) (tms_of terms.now)) }
{
    let mut outer = Vec::new(alloc);
    let mut made = Terms::new(alloc);
    let mut rest = terms;
    let mut next = from;
    'lists: loop {
        match rest.split_first() {
            Some((term, left)) => match head_of(bindings, places, is_whole, next, term) {
                Head::Var(x) => {
                    made.push(Term::Var(x))?;
                    rest = left;
                }
                Head::Num(value) => {
                    made.push(Term::Num(value))?;
                    rest = left;
                }
                Head::Name(name, args) => {
                    let done = mem::replace(&mut made, Terms::new(alloc));
                    let from = next;
                    outer.push(Outer {
                        done,
                        name,
                        left,
                        from,
                    })?;
                    rest = args.terms;
                    next = args.from;
                }
            },
            None => {
                let Some(
                    Outer {
                        done,
                        name,
                        left,
                        from,
                    },
                ) = outer.pop()
                else {
                    return Ok(made);
                };
                let args = mem::replace(&mut made, done);
                made.push(Term::App(name, args))?;
                rest = left;
                next = from;
            }
        }
    }
}
