//! A literal that is called, and literals whose first arguments clash with its own.
ghost use Rattle.std.specs.Prelude.{◌≡◌};
ghost use Rattle.scasp_loops.specs.Inside.Asked.{clash, clash_if, first_root, starts_apart};
ghost use Rattle.scasp_syntax.specs.Values.{all_under};
ghost use Rattle.scasp_unify.specs.Solving.{sub_of};

use scasp_bound::{Bound, Root};
use scasp_syntax::{Lit, Terms};

/// A literal that is called.
#[derive(Drop)]
pub(crate) struct Called<'a> {
    pub(crate) bound: &'a Bound,
    pub(crate) lit: &'a Lit,
    /// How its first argument begins, as the bindings read it, where that is to be looked at.
    pub(crate) first: Option<Root>,
}

/// How the first of the terms begins, as the bindings read it.
#[tactic(auto, using(crate::proofs::ApartLemmas::none_begins, crate::proofs::ApartLemmas::some_begins))]
pub(crate) fn first_root(bound: &Bound, terms: &Terms) -> Option<Root>
    ensures { result ≡ first_root (all_under (sub_of bound.now.now) terms.now) }
{
    match terms.as_slice().split_first() {
        None => None,
        Some((first, _)) => Some(bound.root_of(first)),
    }
}

/// Whether terms that begin so are different, whatever their variables stand for.
fn clash(left: &Root, right: &Root) -> bool
    ensures { result ≡ clash left.now right.now }
{
    match (left, right) {
        (Root::Num(value), Root::Num(other)) => value != other,
        (Root::Name(name), Root::Name(other)) => name != other,
        (Root::Num(_), Root::Name(_)) | (Root::Name(_), Root::Num(_)) => true,
        (Root::Var(_), Root::Var(_) | Root::Num(_) | Root::Name(_))
        | (Root::Num(_) | Root::Name(_), Root::Var(_)) => false,
    }
}

/// The same, where there are two terms.
fn clash_if(left: &Option<Root>, right: &Option<Root>) -> bool
    ensures { result ≡ clash_if left.now right.now }
{
    match (left, right) {
        (Some(first), Some(second)) => clash(first, second),
        (None, None | Some(_)) | (Some(_), None) => false,
    }
}

/// Whether the first argument of the literal, as the bindings read it, clashes with a term that begins so. Nothing is copied.
pub(crate) fn starts_apart(bound: &Bound, first: &Option<Root>, lit: &Lit) -> bool
    ensures { result ≡ starts_apart bound.now.now first.now lit.now }
{
    let other = first_root(bound, &lit.atom.args);
    clash_if(first, &other)
}
