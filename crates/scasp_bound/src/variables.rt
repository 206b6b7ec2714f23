//! The variables of terms as bindings read them.
ghost use Rattle.std.specs.Prelude.{◌≡◌, ◌++◌, OnOk};
ghost use Rattle.scasp_unify.specs.Unification.{terms_vars};
ghost use Rattle.scasp_bound.specs.Inside.Places.{IsRight};
ghost use Rattle.scasp_bound.specs.Inside.Reading.{piece_read};

use crate::places::Place;
use crate::reading::{Head, Piece, head_of};
use scasp_list::Memory;
use scasp_syntax::VarList;
use scasp_unify::Binding;
use std::alloc::Global;

/// Puts the variables of terms, as they are read, behind those found before, each as often as it stands there. It takes
/// memory for the lists that wait for inner ones, and no machine stack.
#[tactic(auto, using(crate::proofs::PieceLemmas::none_left, crate::proofs::PieceLemmas::var_found, crate::proofs::PieceLemmas::num_passed, crate::proofs::PieceLemmas::args_next, crate::proofs::PieceLemmas::less_none, crate::proofs::PieceLemmas::less_one, crate::proofs::PieceLemmas::less_args))]
pub(crate) fn push_vars_of(
    alloc: Global,
    bindings: &[Option<Binding>],
    places: &[Option<Place>],
    is_whole: bool,
    terms: Piece<'_>,
    found: &mut VarList,
) -> Result<(), Memory>
    requires { IsRight is_whole bindings.now places.now }
    ensures { OnOk result (found.new ≡ found.old ++ terms_vars (piece_read bindings.now terms.entry)) }
{
    let mut pieces = Vec::new(alloc);
    pieces.push(terms)?;
    'pieces: while let Some(piece) = pieces.pop() {
        match piece.terms.split_first() {
            None => {}
            Some((term, left)) => {
                pieces.push(Piece {
                    terms: left,
                    from: piece.from,
                })?;
                match head_of(bindings, places, is_whole, piece.from, term) {
                    Head::Var(x) => {
                        found.push(x)?;
                    }
                    Head::Num(_) => {}
                    Head::Name(_, args) => {
                        pieces.push(args)?;
                    }
                }
            }
        }
    }
    Ok(())
}
