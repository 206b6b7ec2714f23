//! What is made of the tables: terms, constraints, atoms, programs.
use crate::worked::written::{Sum, Told, Tried, Written};
use scasp_name::{Memory, NameId, Names};
use scasp_num::{Rat, RatPair, RatPairs, Row, RowErr, Step};
use scasp_reader::read_program;
use scasp_syntax::{Atom, Con, Cons, Hint, Program, Term, Terms};
use scasp_test_samples::{Name, atom, one};
use std::alloc::Global;
use std::hash::RandomState;

fn constant(alloc: Global, place: u64) -> Term {
    Term::App(NameId::new(place), Terms::new(alloc))
}

/// f of the term.
fn compound(alloc: Global, argument: Term) -> Result<Term, Memory> {
    let mut args = Terms::new(alloc);
    args.push(argument)?;
    Ok(Term::App(NameId::new(12), args))
}

fn term(alloc: Global, written: Written) -> Result<Term, Memory> {
    match written {
        Written::V(x) => Ok(Term::Var(x)),
        Written::A => Ok(constant(alloc, 9)),
        Written::B => Ok(constant(alloc, 10)),
        Written::C => Ok(constant(alloc, 11)),
        Written::F(x) => compound(alloc, Term::Var(x)),
    }
}

pub fn terms(alloc: Global, written: &[Written]) -> Result<Terms, Memory> {
    let mut all = Terms::new(alloc);
    for each in written {
        all.push(term(alloc, *each)?)?;
    }
    Ok(all)
}

fn normal(alloc: Global, sum: Sum) -> Result<Row, RowErr> {
    let mut pairs = RatPairs::new(alloc);
    for (x, factor) in sum.0 {
        let value = Rat::new(*factor, 1)?;
        pairs.push(RatPair { x: *x, value })?;
    }
    Row::normal(alloc, &pairs, &Rat::new(sum.1, 1)?, sum.2)
}

/// A row that is too large is want of memory, which no table expects.
fn row(alloc: Global, sum: Sum) -> Result<Row, Memory> {
    match normal(alloc, sum) {
        Ok(row) => Ok(row),
        Err(_) => Err(Memory),
    }
}

/// The place of the constant's name.
fn place_of(written: Written) -> u64 {
    match written {
        Written::A => 9,
        Written::B => 10,
        Written::C | Written::V(_) | Written::F(_) => 11,
    }
}

pub fn con(alloc: Global, told: Told) -> Result<Con, Memory> {
    match told {
        Told::Equal(left, right) => Ok(Con::Eq(term(alloc, left)?, term(alloc, right)?)),
        Told::IsNot(x, name) => Ok(Con::NotShape(x, NameId::new(place_of(name)), 0)),
        Told::HasNotShape(x) => Ok(Con::NotShape(x, NameId::new(12), 1)),
        Told::Number(of) => Ok(Con::Num(term(alloc, of)?)),
        Told::NoNumber(of) => Ok(Con::NotNum(term(alloc, of)?)),
        Told::Compares(sum) => Ok(Con::Row(row(alloc, sum)?)),
    }
}

pub fn cons(alloc: Global, told: &[Told]) -> Result<Cons, Memory> {
    let mut all = Cons::new(alloc);
    for each in told {
        all.push(con(alloc, *each)?)?;
    }
    Ok(all)
}

pub fn hint(alloc: Global, tried: Tried) -> Result<Hint, Memory> {
    match tried {
        Tried::ByTerms => Ok(Hint::Terms),
        Tried::ByStep(a, p, b, q) => Ok(Hint::Rows(one(alloc, Step { a, p, b, q })?)),
    }
}

/// The atom of this name with these arguments.
pub fn applied(alloc: Global, name: Name, args: &[Written]) -> Result<Atom, Memory> {
    let mut made = atom(alloc, name)?;
    for each in args {
        made.args.push(term(alloc, *each)?)?;
    }
    Ok(made)
}

/// The names of predicates and terms, each at the place that the tables give it: the first one is at 2.
const NAMES: &[&str] = &["p", "q", "r", "s", "t", "u", "v", "a", "b", "c", "f"];

fn names(alloc: Global, keys: RandomState) -> Result<Names, Memory> {
    let mut table = Names::new(alloc, keys)?;
    for name in NAMES {
        table.intern(name)?;
    }
    Ok(table)
}

/// The program of this text, whose names are hashed by the keys. A text that is refused is want of memory, which no table expects.
pub fn program(alloc: Global, keys: RandomState, text: &str) -> Result<Program, Memory> {
    let table = names(alloc, keys)?;
    match read_program(alloc, text.as_bytes(), table) {
        Ok((program, _)) => Ok(program),
        Err(_) => Err(Memory),
    }
}
