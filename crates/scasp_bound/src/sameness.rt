//! Whether bindings read terms as the same ones.
ghost use Rattle.std.specs.Prelude.{◌≡◌, ◌<◌, ◌≤◌, ◌+◌, ◌*◌, ◌&&◌, List, Option, IfOk};
ghost use Rattle.scasp_syntax.specs.Same.{same_tm, same_tms};
ghost use Rattle.scasp_syntax.specs.Tm.{weight};
ghost use Rattle.scasp_unify.specs.declared.bindings.Binding.{Binding as ThisBinding};
ghost use Rattle.scasp_bound.specs.Inside.Places.{IsRight};
ghost use Rattle.scasp_bound.specs.Inside.Pairs.{are_same, is_same, left_work, work};
ghost use Rattle.scasp_bound.specs.Inside.Reading.{head_read, piece_read};

use crate::places::Place;
use crate::reading::{Head, Piece, head_of};
use scasp_list::Memory;
use scasp_unify::Binding;
use std::alloc::Global;

/// Two lists of terms that are to be compared.
#[derive(Clone, Copy)]
pub(crate) struct Pair<'a> {
    pub(crate) left: Piece<'a>,
    pub(crate) right: Piece<'a>,
}

/// What is left to be compared of two lists of terms.
#[derive(Clone, Copy)]
enum Left<'a> {
    /// They are not the same.
    Apart,
    /// They are the same.
    Nothing,
    /// They are the same where these are.
    Rest(Pair<'a>),
    /// They are the same where the arguments of their first terms are, and the others.
    Both(Pair<'a>, Pair<'a>),
}

/// What is left of two lists, of which these are the first terms, and this is the rest.
fn left_by_heads<'a>(first: &Head<'a>, second: &Head<'a>, rest: Pair<'a>) -> Left<'a>
    ensures same { (bs : List (Option ThisBinding)) → are_same bs result ≡ (same_tm (head_read bs first.now) (head_read bs second.now) && is_same bs rest.entry) }
    ensures less { (bs : List (Option ThisBinding)) → left_work bs result < 2 * weight (head_read bs first.now) + work bs rest.entry }
{
    match (first, second) {
        (Head::Var(x), Head::Var(y)) => rest_if(x == y, rest),
        (Head::Num(left), Head::Num(right)) => rest_if(left == right, rest),
        (Head::Name(left, left_args), Head::Name(right, right_args)) => {
            if left == right {
                let args = Pair {
                    left: *left_args,
                    right: *right_args,
                };
                args_and_rest(args, rest)
            } else {
                Left::Apart
            }
        }
        (Head::Var(_), Head::Num(_) | Head::Name(..))
        | (Head::Num(_), Head::Var(_) | Head::Name(..))
        | (Head::Name(..), Head::Var(_) | Head::Num(_)) => Left::Apart,
    }
}

/// The arguments of the first terms, if they have any, and the rest.
fn args_and_rest<'a>(args: Pair<'a>, rest: Pair<'a>) -> Left<'a>
    ensures same { (bs : List (Option ThisBinding)) → are_same bs result ≡ (is_same bs args.entry && is_same bs rest.entry) }
    ensures less { (bs : List (Option ThisBinding)) → left_work bs result ≤ work bs args.entry + work bs rest.entry }
{
    if args.left.terms.is_empty() && args.right.terms.is_empty() {
        Left::Rest(rest)
    } else {
        Left::Both(args, rest)
    }
}

/// The rest, if the first terms are the same.
fn rest_if<'a>(agrees: bool, rest: Pair<'a>) -> Left<'a>
    ensures same { (bs : List (Option ThisBinding)) → are_same bs result ≡ (agrees && is_same bs rest.entry) }
    ensures less { (bs : List (Option ThisBinding)) → left_work bs result < 2 + work bs rest.entry }
{
    if agrees {
        Left::Rest(rest)
    } else {
        Left::Apart
    }
}

/// What is left of two lists behind a look at their first terms.
fn left_of<'a>(
    bindings: &'a [Option<Binding>],
    places: &[Option<Place>],
    is_whole: bool,
    pair: Pair<'a>,
) -> Left<'a>
    requires { IsRight is_whole bindings.now places.now }
    ensures same { are_same bindings.now result ≡ is_same bindings.now pair.entry }
    ensures less { left_work bindings.now result < work bindings.now pair.entry }
{
    let Pair { left, right } = pair;
    match (left.terms.split_first(), right.terms.split_first()) {
        (None, None) => Left::Nothing,
        (Some((first, lefts)), Some((second, rights))) => {
            let rest = Pair {
                left: Piece {
                    terms: lefts,
                    from: left.from,
                },
                right: Piece {
                    terms: rights,
                    from: right.from,
                },
            };
            left_by_heads(
                &head_of(bindings, places, is_whole, left.from, first),
                &head_of(bindings, places, is_whole, right.from, second),
                rest,
            )
        }
        (Some(_), None) | (None, Some(_)) => Left::Apart,
    }
}

/// Whether both pairs of lists are the same, as they are read. It takes memory for the lists that are still to be compared,
/// and no machine stack; no term is made.
#[tactic(auto, using(crate::proofs::PairLemmas::two_pairs, crate::proofs::PairLemmas::apart, crate::proofs::PairLemmas::nothing, crate::proofs::PairLemmas::one_rest, crate::proofs::PairLemmas::both_rest, crate::proofs::PairLemmas::all_seen, crate::proofs::PairLemmas::less_nothing, crate::proofs::PairLemmas::less_rest, crate::proofs::PairLemmas::less_both))]
fn are_both_same(
    alloc: Global,
    bindings: &[Option<Binding>],
    places: &[Option<Place>],
    is_whole: bool,
    first: Pair<'_>,
    second: Pair<'_>,
) -> Result<bool, Memory>
    requires { IsRight is_whole bindings.now places.now }
    ensures { IfOk result (λ same. same ≡ (is_same bindings.now first.entry && is_same bindings.now second.entry)) }
{
    let mut unseen = Vec::new(alloc);
    unseen.push(second)?;
    unseen.push(first)?;
    'pairs: while let Some(next) = unseen.pop() {
        match left_of(bindings, places, is_whole, next) {
            Left::Apart => return Ok(false),
            Left::Nothing => {}
            Left::Rest(rest) => {
                unseen.push(rest)?;
            }
            Left::Both(args, rest) => {
                unseen.push(rest)?;
                unseen.push(args)?;
            }
        }
    }
    Ok(true)
}

/// Whether the two lists are the same, as they are read. Memory is taken only where names with arguments are compared; no
/// term is made.
pub(crate) fn are_same(
    alloc: Global,
    bindings: &[Option<Binding>],
    places: &[Option<Place>],
    is_whole: bool,
    pair: Pair<'_>,
) -> Result<bool, Memory>
    requires { IsRight is_whole bindings.now places.now }
    ensures { IfOk result (λ same. same ≡ same_tms (piece_read bindings.now pair.entry.left) (piece_read bindings.now pair.entry.right)) }
{
    let mut next = pair;
    'firsts: loop {
        match left_of(bindings, places, is_whole, next) {
            Left::Apart => return Ok(false),
            Left::Nothing => return Ok(true),
            Left::Rest(rest) => {
                next = rest;
            }
            Left::Both(args, rest) => {
                return are_both_same(alloc, bindings, places, is_whole, args, rest);
            }
        }
    }
}
