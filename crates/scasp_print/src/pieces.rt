//! Terms piece by piece. What is still to be put waits on a stack in memory, so that no term is too deep for the machine's
//! stack.
ghost use Rattle.std.specs.Prelude.{◌≡◌, ◌++◌, ◌+◌, ◌*◌, ◌<◌, true, reverse, OnOk, if◌then◌else◌, codes};
ghost use Rattle.scasp_syntax.specs.Tm.{weight, weight_s};
ghost use Rattle.scasp_syntax.specs.View.{tm_of, tms_of};
ghost use Rattle.scasp_cert.specs.Text.Terms as spec;
ghost use Rattle.scasp_print.specs.Inside.Pieces.{all_text, text_of, weight as piece_weight, weights};

use crate::stack::wait;
use scasp_name::{Memory, NIL, NameId, Names};
use scasp_print_words::{
    is_pair, put, put_constant, put_name, put_number, put_rational, put_separator,
};
use scasp_syntax::{Term, Terms};

/// Puts a variable at the end.
pub fn put_var(out: &mut Vec<u8>, var: u64) -> Result<(), Memory>
    ensures { OnOk result (out.new.items ≡ out.old.items ++ spec.var_text var) }
{
    put(out, "V")?;
    put_number(out, var)
}

/// A piece of terms that is still to be put.
#[derive(Drop)]
pub(crate) enum Piece<'a> {
    /// A fixed text.
    Text(&'a str),
    /// Arguments with commas between them, the first of all in front or not.
    Arguments(bool, &'a [Term]),
    /// Arguments of a pair, its first element in front or not.
    Elements(bool, &'a [Term]),
}

/// Puts the beginning of the two elements of a pair between brackets; the rest waits.
fn begin_pair<'a>(
    out: &mut Vec<u8>,
    names: &Names,
    args: &'a Terms,
    waiting: &mut Vec<Piece<'a>>,
) -> Result<(), Memory>
    ensures text { OnOk result (out.new.items ++ all_text names.now (reverse waiting.new.items) ≡ out.old.items ++ ((codes "[" ++ spec.pair_text names.now true args.now ++ codes "]") ++ all_text names.now (reverse waiting.old.items))) }
    ensures falls { OnOk result (weights (reverse waiting.new.items) < weights (reverse waiting.old.items) + (3 * weight_s args.now + 3)) }
{
    put(out, "[")?;
    wait(waiting, Piece::Text("]"))?;
    wait(waiting, Piece::Elements(true, args.as_slice()))
}

/// Puts a name, and a bracket where it has arguments, which wait.
pub(crate) fn begin_called<'a>(
    out: &mut Vec<u8>,
    names: &Names,
    name: NameId,
    args: &'a Terms,
    waiting: &mut Vec<Piece<'a>>,
) -> Result<(), Memory>
    ensures text { OnOk result (out.new.items ++ all_text names.now (reverse waiting.new.items) ≡ out.old.items ++ (spec.called_text names.now name args.now (spec.terms_text names.now true args.now) ++ all_text names.now (reverse waiting.old.items))) }
    ensures falls { OnOk result (weights (reverse waiting.new.items) < weights (reverse waiting.old.items) + (3 * weight_s args.now + 3)) }
{
    put_name(out, names, name)?;
    if args.len() == 0 {
        return Ok(());
    }
    put(out, "(")?;
    wait(waiting, Piece::Text(")"))?;
    wait(waiting, Piece::Arguments(true, args.as_slice()))
}

/// Puts the beginning of a name with arguments as a term; the rest waits.
fn begin_app<'a>(
    out: &mut Vec<u8>,
    names: &Names,
    name: NameId,
    args: &'a Terms,
    waiting: &mut Vec<Piece<'a>>,
) -> Result<(), Memory>
    ensures text { OnOk result (out.new.items ++ all_text names.now (reverse waiting.new.items) ≡ out.old.items ++ (spec.app_text names.now name args.now (spec.terms_text names.now true args.now) (spec.pair_text names.now true args.now) ++ all_text names.now (reverse waiting.old.items))) }
    ensures falls { OnOk result (weights (reverse waiting.new.items) < weights (reverse waiting.old.items) + (3 * weight_s args.now + 3)) }
{
    if args.len() == 0 {
        put_constant(out, names, name)
    } else if is_pair(name, args) {
        begin_pair(out, names, args, waiting)
    } else {
        begin_called(out, names, name, args, waiting)
    }
}

/// Puts the beginning of a name with arguments as the rest of a list; the rest waits.
fn begin_rest<'a>(
    out: &mut Vec<u8>,
    names: &Names,
    name: NameId,
    args: &'a Terms,
    waiting: &mut Vec<Piece<'a>>,
) -> Result<(), Memory>
    ensures text { OnOk result (out.new.items ++ all_text names.now (reverse waiting.new.items) ≡ out.old.items ++ (spec.rest_text names.now name args.now (spec.terms_text names.now true args.now) (spec.pair_text names.now true args.now) ++ all_text names.now (reverse waiting.old.items))) }
    ensures falls { OnOk result (weights (reverse waiting.new.items) < weights (reverse waiting.old.items) + (3 * weight_s args.now + 3)) }
{
    if args.len() == 0 && name == NIL {
        Ok(())
    } else if is_pair(name, args) {
        put(out, ",")?;
        wait(waiting, Piece::Elements(true, args.as_slice()))
    } else {
        put(out, "|")?;
        begin_called(out, names, name, args, waiting)
    }
}

/// Puts the beginning of a term; the rest waits.
pub(crate) fn begin_term<'a>(
    out: &mut Vec<u8>,
    names: &Names,
    term: &'a Term,
    waiting: &mut Vec<Piece<'a>>,
) -> Result<(), Memory>
    ensures text { OnOk result (out.new.items ++ all_text names.now (reverse waiting.new.items) ≡ out.old.items ++ (spec.term_text names.now (tm_of term.now) ++ all_text names.now (reverse waiting.old.items))) }
    ensures falls { OnOk result (weights (reverse waiting.new.items) < weights (reverse waiting.old.items) + 3 * weight (tm_of term.now)) }
{
    match term {
        Term::Var(var) => put_var(out, *var),
        Term::Num(number) => put_rational(out, *number),
        Term::App(name, args) => begin_app(out, names, *name, args, waiting),
    }
}

/// Puts the beginning of a term as the rest of a list; the rest waits.
fn begin_tail<'a>(
    out: &mut Vec<u8>,
    names: &Names,
    term: &'a Term,
    waiting: &mut Vec<Piece<'a>>,
) -> Result<(), Memory>
    ensures text { OnOk result (out.new.items ++ all_text names.now (reverse waiting.new.items) ≡ out.old.items ++ (spec.tail_text names.now (tm_of term.now) ++ all_text names.now (reverse waiting.old.items))) }
    ensures falls { OnOk result (weights (reverse waiting.new.items) < weights (reverse waiting.old.items) + 3 * weight (tm_of term.now)) }
{
    match term {
        Term::Var(var) => {
            put(out, "|")?;
            put_var(out, *var)
        }
        Term::Num(number) => {
            put(out, "|")?;
            put_rational(out, *number)
        }
        Term::App(name, args) => begin_rest(out, names, *name, args, waiting),
    }
}

/// Puts the beginning of arguments; the rest waits.
pub(crate) fn begin_arguments<'a>(
    out: &mut Vec<u8>,
    names: &Names,
    is_first: bool,
    terms: &'a [Term],
    waiting: &mut Vec<Piece<'a>>,
) -> Result<(), Memory>
    ensures text { OnOk result (out.new.items ++ all_text names.now (reverse waiting.new.items) ≡ out.old.items ++ (spec.terms_text names.now is_first (tms_of terms.now) ++ all_text names.now (reverse waiting.old.items))) }
    ensures falls { OnOk result (weights (reverse waiting.new.items) < weights (reverse waiting.old.items) + (3 * weight_s (tms_of terms.now) + 1)) }
{
    match terms.split_first() {
        None => Ok(()),
        Some((first, others)) => {
            wait(waiting, Piece::Arguments(false, others))?;
            put_separator(out, is_first, ",")?;
            begin_term(out, names, first, waiting)
        }
    }
}

/// Puts the beginning of an element of a list; the rest waits.
fn begin_element<'a>(
    out: &mut Vec<u8>,
    names: &Names,
    is_first: bool,
    term: &'a Term,
    waiting: &mut Vec<Piece<'a>>,
) -> Result<(), Memory>
    ensures text { OnOk result (out.new.items ++ all_text names.now (reverse waiting.new.items) ≡ out.old.items ++ ((if is_first then spec.term_text names.now (tm_of term.now) else spec.tail_text names.now (tm_of term.now)) ++ all_text names.now (reverse waiting.old.items))) }
    ensures falls { OnOk result (weights (reverse waiting.new.items) < weights (reverse waiting.old.items) + 3 * weight (tm_of term.now)) }
{
    if is_first {
        begin_term(out, names, term, waiting)
    } else {
        begin_tail(out, names, term, waiting)
    }
}

/// Puts the beginning of the arguments of a pair; the rest waits.
fn begin_elements<'a>(
    out: &mut Vec<u8>,
    names: &Names,
    is_first: bool,
    terms: &'a [Term],
    waiting: &mut Vec<Piece<'a>>,
) -> Result<(), Memory>
    ensures text { OnOk result (out.new.items ++ all_text names.now (reverse waiting.new.items) ≡ out.old.items ++ (spec.pair_text names.now is_first (tms_of terms.now) ++ all_text names.now (reverse waiting.old.items))) }
    ensures falls { OnOk result (weights (reverse waiting.new.items) < weights (reverse waiting.old.items) + (3 * weight_s (tms_of terms.now) + 1)) }
{
    match terms.split_first() {
        None => Ok(()),
        Some((first, others)) => {
            wait(waiting, Piece::Elements(false, others))?;
            begin_element(out, names, is_first, first, waiting)
        }
    }
}

/// Puts the beginning of a piece that waited; the rest waits.
fn begin<'a>(
    out: &mut Vec<u8>,
    names: &Names,
    piece: Piece<'a>,
    waiting: &mut Vec<Piece<'a>>,
) -> Result<(), Memory>
    ensures text { OnOk result (out.new.items ++ all_text names.now (reverse waiting.new.items) ≡ out.old.items ++ (text_of names.now piece.entry ++ all_text names.now (reverse waiting.old.items))) }
    ensures falls { OnOk result (weights (reverse waiting.new.items) < weights (reverse waiting.old.items) + piece_weight piece.entry) }
{
    match piece {
        Piece::Text(text) => put(out, text),
        Piece::Arguments(is_first, terms) => begin_arguments(out, names, is_first, terms, waiting),
        Piece::Elements(is_first, terms) => begin_elements(out, names, is_first, terms, waiting),
    }
}

/// Puts all that waits at the end.
pub(crate) fn put_all(
    out: &mut Vec<u8>,
    names: &Names,
    pieces: Vec<Piece<'_>>,
) -> Result<(), Memory>
    ensures { OnOk result (out.new.items ≡ out.old.items ++ all_text names.now (reverse pieces.entry.items)) }
{
    let mut waiting = pieces;
    while let Some(piece) = waiting.pop() {
        begin(out, names, piece, &mut waiting)?;
    }
    Ok(())
}
