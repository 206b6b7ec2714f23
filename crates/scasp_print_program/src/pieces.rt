//! Terms piece by piece. What is still to be put waits on a stack in memory, so that no term is too deep for the machine's
//! stack.
ghost use Rattle.std.specs.Prelude.{◌≡◌, ◌++◌, ◌∷◌, ◌+◌, ◌*◌, ◌-◌, ◌<◌, true, reverse, OnOk, if◌then◌else◌, codes};
ghost use Rattle.scasp_syntax.specs.Tm.{weight, weight_s};
ghost use Rattle.scasp_syntax.specs.View.{tm_of, tms_of};
ghost use Rattle.scasp_cert.specs.Text.Terms.{called_text};
ghost use Rattle.scasp_print_program.specs.Pieces.{all_text, text_of, weight as piece_weight, weights};
ghost use Rattle.scasp_print_program.specs.Terms as spec;

use crate::style::Shown;
use scasp_list::Memory;
use scasp_name::{NIL, NameId};
use scasp_print_words::{is_pair, put, put_name, put_rational, put_separator};
use scasp_syntax::{Term, Terms};

/// A piece of terms that is still to be put; inside it so many brackets may be opened.
#[derive(Drop)]
pub(crate) enum Piece<'a> {
    /// A fixed text.
    Text(&'a str),
    /// Arguments with commas between them, the first of all in front or not.
    Arguments(u64, bool, &'a [Term]),
    /// Arguments of a pair, its first element in front or not.
    Elements(u64, bool, &'a [Term]),
}

/// Puts a piece before those that wait; the last of them is the next to be put.
fn wait<'a>(waiting: &mut Vec<Piece<'a>>, piece: Piece<'a>) -> Result<(), Memory>
    ensures { OnOk result (reverse waiting.new.items ≡ piece.entry ∷ reverse waiting.old.items) }
{
    waiting.push(piece)?;
    Ok(())
}

/// Puts a name without arguments at the end, as a term.
fn put_constant(out: &mut Vec<u8>, shown: &Shown<'_>, room: u64, name: NameId) -> Result<(), Memory>
    ensures { OnOk result (out.new.items ≡ out.old.items ++ spec.constant_text shown.now room name) }
{
    if name == NIL {
        put(out, if room == 0 { "'[]'" } else { "[]" })
    } else {
        put_name(out, shown.names(), name)
    }
}

/// Puts the text of a variable at the end.
pub(crate) fn put_variable(out: &mut Vec<u8>, shown: &Shown<'_>, var: u64) -> Result<(), Memory>
    ensures { OnOk result (out.new.items ≡ out.old.items ++ spec.variable_text shown.now var) }
{
    out.extend_from_slice(shown.variable(var))?;
    Ok(())
}

/// Puts the beginning of the two elements of a pair between brackets; the rest waits.
fn begin_pair<'a>(
    out: &mut Vec<u8>,
    shown: &Shown<'_>,
    room: u64,
    args: &'a Terms,
    waiting: &mut Vec<Piece<'a>>,
) -> Result<(), Memory>
    ensures text { OnOk result (out.new.items ++ all_text shown.now (reverse waiting.new.items) ≡ out.old.items ++ ((codes "[" ++ spec.pair_text shown.now room true args.now ++ codes "]") ++ all_text shown.now (reverse waiting.old.items))) }
    ensures falls { OnOk result (weights (reverse waiting.new.items) < weights (reverse waiting.old.items) + (3 * weight_s args.now + 3)) }
{
    put(out, "[")?;
    wait(waiting, Piece::Text("]"))?;
    wait(waiting, Piece::Elements(room, true, args.as_slice()))
}

/// Puts a name, and a bracket where it has arguments, which wait; in this bracket so many may be opened.
pub(crate) fn begin_called<'a>(
    out: &mut Vec<u8>,
    shown: &Shown<'_>,
    room: u64,
    name: NameId,
    args: &'a Terms,
    waiting: &mut Vec<Piece<'a>>,
) -> Result<(), Memory>
    ensures text { OnOk result (out.new.items ++ all_text shown.now (reverse waiting.new.items) ≡ out.old.items ++ (called_text shown.now.names name args.now (spec.terms_text shown.now room true args.now) ++ all_text shown.now (reverse waiting.old.items))) }
    ensures falls { OnOk result (weights (reverse waiting.new.items) < weights (reverse waiting.old.items) + (3 * weight_s args.now + 3)) }
{
    put_name(out, shown.names(), name)?;
    if args.len() == 0 {
        return Ok(());
    }
    put(out, "(")?;
    wait(waiting, Piece::Text(")"))?;
    wait(waiting, Piece::Arguments(room, true, args.as_slice()))
}

/// Puts the beginning of a name with arguments as a term; the rest waits.
fn begin_app<'a>(
    out: &mut Vec<u8>,
    shown: &Shown<'_>,
    room: u64,
    name: NameId,
    args: &'a Terms,
    waiting: &mut Vec<Piece<'a>>,
) -> Result<(), Memory>
    ensures text { OnOk result (out.new.items ++ all_text shown.now (reverse waiting.new.items) ≡ out.old.items ++ (spec.app_text shown.now room name args.now (spec.terms_text shown.now (room - 1) true args.now) (spec.pair_text shown.now (room - 1) true args.now) ++ all_text shown.now (reverse waiting.old.items))) }
    ensures falls { OnOk result (weights (reverse waiting.new.items) < weights (reverse waiting.old.items) + (3 * weight_s args.now + 3)) }
{
    if args.len() == 0 {
        put_constant(out, shown, room, name)
    } else if is_pair(name, args) {
        begin_pair(out, shown, room.saturating_sub(1), args, waiting)
    } else {
        begin_called(out, shown, room.saturating_sub(1), name, args, waiting)
    }
}

/// Puts the beginning of a name with arguments as the rest of a list; the rest waits.
fn begin_rest<'a>(
    out: &mut Vec<u8>,
    shown: &Shown<'_>,
    room: u64,
    name: NameId,
    args: &'a Terms,
    waiting: &mut Vec<Piece<'a>>,
) -> Result<(), Memory>
    ensures text { OnOk result (out.new.items ++ all_text shown.now (reverse waiting.new.items) ≡ out.old.items ++ (spec.rest_text shown.now name args.now (spec.terms_text shown.now (room - 1) true args.now) (spec.pair_text shown.now room true args.now) ++ all_text shown.now (reverse waiting.old.items))) }
    ensures falls { OnOk result (weights (reverse waiting.new.items) < weights (reverse waiting.old.items) + (3 * weight_s args.now + 3)) }
{
    if args.len() == 0 && name == NIL {
        Ok(())
    } else if is_pair(name, args) {
        put(out, ",")?;
        wait(waiting, Piece::Elements(room, true, args.as_slice()))
    } else {
        put(out, "|")?;
        begin_called(out, shown, room.saturating_sub(1), name, args, waiting)
    }
}

/// Puts the beginning of a term, where so many brackets may be opened; the rest waits.
pub(crate) fn begin_term<'a>(
    out: &mut Vec<u8>,
    shown: &Shown<'_>,
    room: u64,
    term: &'a Term,
    waiting: &mut Vec<Piece<'a>>,
) -> Result<(), Memory>
    ensures text { OnOk result (out.new.items ++ all_text shown.now (reverse waiting.new.items) ≡ out.old.items ++ (spec.term_text shown.now room (tm_of term.now) ++ all_text shown.now (reverse waiting.old.items))) }
    ensures falls { OnOk result (weights (reverse waiting.new.items) < weights (reverse waiting.old.items) + 3 * weight (tm_of term.now)) }
{
    match term {
        Term::Var(var) => put_variable(out, shown, *var),
        Term::Num(number) => put_rational(out, *number),
        Term::App(name, args) => begin_app(out, shown, room, *name, args, waiting),
    }
}

/// Puts the beginning of a term as the rest of a list; the rest waits.
fn begin_tail<'a>(
    out: &mut Vec<u8>,
    shown: &Shown<'_>,
    room: u64,
    term: &'a Term,
    waiting: &mut Vec<Piece<'a>>,
) -> Result<(), Memory>
    ensures text { OnOk result (out.new.items ++ all_text shown.now (reverse waiting.new.items) ≡ out.old.items ++ (spec.tail_text shown.now room (tm_of term.now) ++ all_text shown.now (reverse waiting.old.items))) }
    ensures falls { OnOk result (weights (reverse waiting.new.items) < weights (reverse waiting.old.items) + 3 * weight (tm_of term.now)) }
{
    match term {
        Term::Var(var) => {
            put(out, "|")?;
            put_variable(out, shown, *var)
        }
        Term::Num(number) => {
            put(out, "|")?;
            put_rational(out, *number)
        }
        Term::App(name, args) => begin_rest(out, shown, room, *name, args, waiting),
    }
}

/// Puts the beginning of arguments; the rest waits.
fn begin_arguments<'a>(
    out: &mut Vec<u8>,
    shown: &Shown<'_>,
    room: u64,
    is_first: bool,
    terms: &'a [Term],
    waiting: &mut Vec<Piece<'a>>,
) -> Result<(), Memory>
    ensures text { OnOk result (out.new.items ++ all_text shown.now (reverse waiting.new.items) ≡ out.old.items ++ (spec.terms_text shown.now room is_first (tms_of terms.now) ++ all_text shown.now (reverse waiting.old.items))) }
    ensures falls { OnOk result (weights (reverse waiting.new.items) < weights (reverse waiting.old.items) + (3 * weight_s (tms_of terms.now) + 1)) }
{
    match terms.split_first() {
        None => Ok(()),
        Some((first, others)) => {
            wait(waiting, Piece::Arguments(room, false, others))?;
            put_separator(out, is_first, ",")?;
            begin_term(out, shown, room, first, waiting)
        }
    }
}

/// Puts the beginning of an element of a list; the rest waits.
fn begin_element<'a>(
    out: &mut Vec<u8>,
    shown: &Shown<'_>,
    room: u64,
    is_first: bool,
    term: &'a Term,
    waiting: &mut Vec<Piece<'a>>,
) -> Result<(), Memory>
    ensures text { OnOk result (out.new.items ++ all_text shown.now (reverse waiting.new.items) ≡ out.old.items ++ ((if is_first then spec.term_text shown.now room (tm_of term.now) else spec.tail_text shown.now room (tm_of term.now)) ++ all_text shown.now (reverse waiting.old.items))) }
    ensures falls { OnOk result (weights (reverse waiting.new.items) < weights (reverse waiting.old.items) + 3 * weight (tm_of term.now)) }
{
    if is_first {
        begin_term(out, shown, room, term, waiting)
    } else {
        begin_tail(out, shown, room, term, waiting)
    }
}

/// Puts the beginning of the arguments of a pair; the rest waits.
fn begin_elements<'a>(
    out: &mut Vec<u8>,
    shown: &Shown<'_>,
    room: u64,
    is_first: bool,
    terms: &'a [Term],
    waiting: &mut Vec<Piece<'a>>,
) -> Result<(), Memory>
    ensures text { OnOk result (out.new.items ++ all_text shown.now (reverse waiting.new.items) ≡ out.old.items ++ (spec.pair_text shown.now room is_first (tms_of terms.now) ++ all_text shown.now (reverse waiting.old.items))) }
    ensures falls { OnOk result (weights (reverse waiting.new.items) < weights (reverse waiting.old.items) + (3 * weight_s (tms_of terms.now) + 1)) }
{
    match terms.split_first() {
        None => Ok(()),
        Some((first, others)) => {
            wait(waiting, Piece::Elements(room, false, others))?;
            begin_element(out, shown, room, is_first, first, waiting)
        }
    }
}

/// Puts the beginning of a piece that waited; the rest waits.
fn begin<'a>(
    out: &mut Vec<u8>,
    shown: &Shown<'_>,
    piece: Piece<'a>,
    waiting: &mut Vec<Piece<'a>>,
) -> Result<(), Memory>
    ensures text { OnOk result (out.new.items ++ all_text shown.now (reverse waiting.new.items) ≡ out.old.items ++ (text_of shown.now piece.entry ++ all_text shown.now (reverse waiting.old.items))) }
    ensures falls { OnOk result (weights (reverse waiting.new.items) < weights (reverse waiting.old.items) + piece_weight piece.entry) }
{
    match piece {
        Piece::Text(text) => put(out, text),
        Piece::Arguments(room, is_first, terms) => {
            begin_arguments(out, shown, room, is_first, terms, waiting)
        }
        Piece::Elements(room, is_first, terms) => {
            begin_elements(out, shown, room, is_first, terms, waiting)
        }
    }
}

/// Puts all that waits at the end.
pub(crate) fn put_all(
    out: &mut Vec<u8>,
    shown: &Shown<'_>,
    pieces: Vec<Piece<'_>>,
) -> Result<(), Memory>
    ensures { OnOk result (out.new.items ≡ out.old.items ++ all_text shown.now (reverse pieces.entry.items)) }
{
    let mut waiting = pieces;
    while let Some(piece) = waiting.pop() {
        begin(out, shown, piece, &mut waiting)?;
    }
    Ok(())
}
