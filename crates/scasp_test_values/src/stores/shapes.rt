//! Terms of the tables.
use scasp_name::{Memory, NameId};
use scasp_syntax::{Term, Terms, same};
use std::alloc::Global;

/// A variable, or a name with its arguments.
pub enum Shape {
    V(u64),
    F(u64, &'static [Shape]),
}

/// The term that the shape spells.
pub fn term(alloc: Global, shape: &Shape) -> Result<Term, Memory> {
    match shape {
        Shape::V(x) => Ok(Term::Var(*x)),
        Shape::F(name, shapes) => {
            let mut args = Terms::new(alloc);
            for shape in *shapes {
                args.push(term(alloc, shape)?)?;
            }
            Ok(Term::App(NameId::new(*name), args))
        }
    }
}

/// Whether this is the term that the shape spells.
pub fn is_shape(alloc: Global, found: &Term, shape: &Shape) -> Result<bool, Memory> {
    let want = term(alloc, shape)?;
    same(alloc, found, &want)
}

/// A name with a term so many times around the variable.
pub fn nested(alloc: Global, x: u64, count: u64) -> Result<Term, Memory> {
    let mut made = Term::Var(x);
    for _level in 0..count {
        let mut args = Terms::new(alloc);
        args.push(made)?;
        made = Term::App(NameId::new(6), args);
    }
    Ok(made)
}
