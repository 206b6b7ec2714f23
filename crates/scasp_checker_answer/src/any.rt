//! Whether a known variable stands in terms.
ghost use Rattle.std.specs.Prelude.{◌≡◌, ◌||◌, not, IfOk};
ghost use Rattle.std.specs.List.{list_any};
ghost use Rattle.scasp_syntax.specs.View.{tm_of};
ghost use Rattle.scasp_checker_rules.specs.Splits.{has_any};

use crate::scope::{Scope, is_known};
use scasp_list::Memory;
use scasp_num::Coeff;
use scasp_syntax::Term;
use std::alloc::Global;

/// The variables that are not known.
#[derive(Drop)]
struct Others<'a, S> {
    scope: &'a S,
}

impl<S: Scope> Scope for Others<'_, S> {
    ghost use Rattle.std.specs.Prelude.{not};

    ghost known = { λ o x. not (S.known o.scope.now x) };

    fn knows(&self, alloc: Global, x: u64) -> Result<bool, Memory> {
        Ok(!self.scope.knows(alloc, x)?)
    }
}

/// Whether a known variable stands in the term, with memory as `are_known`.
pub fn has_any<S: Scope>(alloc: Global, scope: &S, term: &Term) -> Result<bool, Memory>
    ensures { IfOk result (λ answer. answer ≡ has_any (S.known scope.now) (tm_of term.now)) }
{
    let others = Others { scope };
    Ok(!is_known(alloc, &others, term)?)
}

/// Whether a known variable stands in one of the terms, with memory as `are_known`.
pub fn has_either<S: Scope>(
    alloc: Global,
    scope: &S,
    left: &Term,
    right: &Term,
) -> Result<bool, Memory>
    ensures { IfOk result (λ answer. answer ≡ (has_any (S.known scope.now) (tm_of left.now) || has_any (S.known scope.now) (tm_of right.now))) }
{
    if has_any(alloc, scope, left)? {
        return Ok(true);
    }
    has_any(alloc, scope, right)
}

/// Whether one of the coefficients' variables is known.
pub fn any_of_terms<S: Scope>(alloc: Global, scope: &S, coeffs: &[Coeff]) -> Result<bool, Memory>
    ensures { IfOk result (λ answer. answer ≡ list_any (λ k. S.known scope.now k.x) coeffs.now) }
{
    for k in coeffs {
        if scope.knows(alloc, k.x)? {
            return Ok(true);
        }
    }
    Ok(false)
}
