//! The literal above that a call repeats.
ghost use Rattle.std.specs.Prelude.{◌≡◌, ◌∷◌, ◌<◌, [], IfOk, MatchOption, false, length};
ghost use Rattle.scasp_search_calls.specs.Calls.Inside.Alike.{is_alike};
ghost use Rattle.scasp_search_calls.specs.Calls.Inside.Open.{open_among};
ghost use Rattle.scasp_search_rules.specs.Successors.Calls.{ancestors, is_same, lit_under, nearest};

use scasp_list::Memory;
use scasp_search_rules::{Literal, Repeated, State};
use scasp_search_terms::reading::read_terms;
use scasp_syntax::{Lit, Terms, same_terms};
use std::alloc::Global;

/// Whether the literals have one sign and one name, whatever their arguments.
fn is_alike(lit: &Lit, other: &Lit) -> bool
    ensures { result ≡ is_alike lit.now other.now }
{
    lit.positive == other.positive
        && lit.atom.minus == other.atom.minus
        && lit.atom.name == other.atom.name
}

/// Whether the literal is this one, as both read now; `args` is how the arguments of the first read.
pub(crate) fn is_same(
    alloc: Global,
    state: &State,
    lit: &Lit,
    args: &Terms,
    other: &Literal,
) -> Result<bool, Memory>
    requires { args.now ≡ (lit_under state.now lit.now).atom.args }
    ensures { IfOk result (λ answer. answer ≡ is_same state.now lit.now other.now) }
{
    if other.is_general || !is_alike(&other.lit, lit) {
        return Ok(false);
    }
    let read = read_terms(alloc, &other.lit.atom.args, state.bound.as_slice())?;
    same_terms(alloc, &read, args)
}

/// The last of the literals that is open, and those before it.
#[tactic(auto, using(crate::proofs::CallsLemmas::OpenLemmas::open_pushed))]
pub(crate) fn last_open(literals: &[Literal]) -> Option<(&Literal, &[Literal])>
    ensures open { MatchOption result (open_among literals.now ≡ []) (λ p. open_among literals.now ≡ p.0.now ∷ open_among p.1.now) }
    ensures fewer { MatchOption result (length literals.now ≡ length literals.now) (λ p. length p.1.now < length literals.now) }
{
    let mut rest = literals;
    while let Some((last, before)) = rest.split_last() {
        if !last.is_done {
            return Some((last, before));
        }
        rest = before;
    }
    None
}

/// The nearest literal above that is this one, if there is one.
pub fn nearest(alloc: Global, state: &State, lit: &Lit) -> Result<Option<Repeated>, Memory>
    ensures { IfOk result (λ found. found ≡ nearest state.now lit.now false (ancestors state.now)) }
{
    let args = read_terms(alloc, &lit.atom.args, state.bound.as_slice())?;
    let mut rest = state.literals.as_slice();
    let mut passed = false;
    while let Some((last, before)) = last_open(rest) {
        if is_same(alloc, state, lit, &args, last)? {
            return Ok(Some(Repeated {
                number: last.number,
                is_behind_negation: passed,
            }));
        }
        passed = passed || !last.lit.positive;
        rest = before;
    }
    Ok(None)
}
