//! Whether two rows are equal.
ghost use Rattle.std.specs.Prelude.{◌≡◌, ◌↔◌, IsTrue};
ghost use Rattle.scasp_num.specs.SameRow.{same_row, same_terms};

use crate::linear::{Coeff, Row};

impl Row {
    /// Whether the rows are equal.
    pub fn is_same(&self, other: &Row) -> bool
        ensures value { result ≡ same_row self.now other.now }
        ensures exact { IsTrue result ↔ (self.now ≡ other.now) }
    {
        self.op() == other.op()
            && self.constant() == other.constant()
            && same_terms(self.coeffs().as_slice(), other.coeffs().as_slice())
    }
}

fn same_terms(p: &[Coeff], q: &[Coeff]) -> bool
    ensures { result ≡ same_terms p.now q.now }
{
    if p.len() != q.len() {
        return false;
    }
    for (i, k) in p.iter().enumerate() {
        if k.x != q[i].x || k.c != q[i].c {
            return false;
        }
    }
    true
}
