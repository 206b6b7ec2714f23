//! Lists of constraints as they are written in the tables.
use crate::written::row_of;
use scasp_name::NameId;
use scasp_num::{Op, Rat};
use scasp_syntax::{Con, Cons, Term, Terms};
use std::alloc::Global;
use std::test::Fail;

/// A variable, a whole number, or a name with its arguments.
pub enum Written {
    V(u64),
    N(i128),
    F(u64, &'static [Written]),
}

/// A constraint.
pub enum Told {
    Equal(Written, Written),
    Differ(Written, Written),
    NoShape(u64, u64, u64),
    Number(u64),
    NoNumber(u64),
    Compared(&'static [(u64, i128)], i128, Op),
}

fn term(alloc: Global, given: &Written) -> Result<Term, Fail> {
    match given {
        Written::V(x) => Ok(Term::Var(*x)),
        Written::N(value) => Ok(Term::Num(Rat::new(*value, 1)?)),
        Written::F(name, listed) => {
            let mut args = Terms::new(alloc);
            for argument in *listed {
                args.push(term(alloc, argument)?)?;
            }
            Ok(Term::App(NameId::new(*name), args))
        }
    }
}

fn equation(alloc: Global, left: &Written, right: &Written) -> Result<Con, Fail> {
    let left = term(alloc, left)?;
    Ok(Con::Eq(left, term(alloc, right)?))
}

fn disequation(alloc: Global, left: &Written, right: &Written) -> Result<Con, Fail> {
    let left = term(alloc, left)?;
    Ok(Con::Neq(left, term(alloc, right)?))
}

fn constraint(alloc: Global, given: &Told) -> Result<Con, Fail> {
    match given {
        Told::Equal(left, right) => equation(alloc, left, right),
        Told::Differ(left, right) => disequation(alloc, left, right),
        Told::NoShape(x, name, arity) => Ok(Con::NotShape(*x, NameId::new(*name), *arity)),
        Told::Number(x) => Ok(Con::Num(Term::Var(*x))),
        Told::NoNumber(x) => Ok(Con::NotNum(Term::Var(*x))),
        Told::Compared(terms, constant, op) => Ok(Con::Row(row_of(alloc, terms, *constant, *op)?)),
    }
}

pub fn constraints(alloc: Global, given: &[Told]) -> Result<Cons, Fail> {
    let mut all = Cons::new(alloc);
    for told in given {
        all.push(constraint(alloc, told)?)?;
    }
    Ok(all)
}
