//! Constraints whose variables get the numbers that they have in a certificate.
ghost use Rattle.std.specs.Prelude.{◌≡◌, IfOk, map};
ghost use Rattle.scasp_search_rules.specs.Successors.Numbering.{con_renamed, place_of, placing};

use scasp_lines_places::{Substitution, determined};
use scasp_list::Memory;
use scasp_syntax::{Con, Cons, DeepCopy, Term};
use std::alloc::Global;

/// Each variable by its place among these, as a substitution.
#[derive(Drop)]
pub struct Placing<'a> {
    pub all: &'a [u64],
}

/// The place of the variable among these, and how many there are where it is none of them.
fn place_of(x: u64, all: &[u64]) -> u64
    ensures { result ≡ place_of x all.now }
{
    for (place, y) in all.iter().enumerate() {
        if *y == x {
            return place as u64;
        }
    }
    all.len() as u64
}

impl Substitution for Placing<'_> {
    ghost gives = { λ p. placing p.all.now };

    fn value(&self, _alloc: Global, x: u64) -> Result<Term, Memory> {
        Ok(Term::Var(place_of(x, self.all)))
    }
}

/// The constraint renamed, in simple form.
pub fn con_renamed(alloc: Global, by: &Placing, constraint: &Con) -> Result<Con, Memory>
    ensures { IfOk result (λ made. made ≡ con_renamed (placing by.now.all.now) constraint.now) }
{
    match determined(alloc, by, constraint)? {
        Some(made) => Ok(made),
        None => constraint.copy(alloc),
    }
}

/// The constraints renamed, in simple form.
pub fn cons_renamed(alloc: Global, by: &Placing, list: &[Con]) -> Result<Cons, Memory>
    ensures { IfOk result (λ made. made ≡ map (con_renamed (placing by.now.all.now)) list.now) }
{
    let mut made = Cons::new(alloc);
    for constraint in list {
        made.push(con_renamed(alloc, by, constraint)?)?;
    }
    Ok(made)
}
