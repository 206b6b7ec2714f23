//! Constraints.
ghost use Rattle.std.specs.Prelude.{◌≡◌, ◌∷◌, [], codes};
ghost use Rattle.scasp_reader_terms.specs.Names.{place_in};
ghost use Rattle.scasp_syntax.specs.View.{tm_of};
ghost use Rattle.scasp_answers_terms.specs.Tokens.Constraints as spec;
ghost use Rattle.scasp_answers_terms.specs.Tokens.Readers.{made, keyed, any_of, until};
ghost use Rattle.scasp_answers_terms.specs.Tokens.Terms.{term_at};
ghost use Rattle.scasp_answers_lines.specs.Forms.Shapes.{constant_shape};
ghost use Rattle.scasp_syntax.specs.declared.con.Con.TheVariants as con;
ghost use Rattle.scasp_answers_terms.specs.Tokens.View.{Reads};

use crate::rows::row_con;
use scasp_answers_terms::{Cursor, Stop, Token, is_count, is_place, name, term};
use scasp_name::{NameId, Names};
use scasp_syntax::{Con, Term};
use std::alloc::Global;

/// That the variable has not this shape; where a number is too large, a constraint that is too large.
fn shape_con(variable: u128, name: NameId, arity: u128) -> Con
    ensures { result ≡ spec.shape_con variable (name, arity) }
{
    if is_place(variable) && is_count(arity) {
        Con::NotShape(variable as u64, name, arity as u64)
    } else {
        Con::Eq(Term::Var(u64::MAX), Term::Var(u64::MAX))
    }
}

/// Takes the name and the number of arguments of a shape behind its variable.
fn shape(alloc: Global, variable: u128, cursor: &mut Cursor<'_>, names: &Names) -> Result<Con, Stop>
    ensures { Reads (λ c. c) (spec.behind_variable (place_in names.now) variable cursor.old) result cursor.new }
{
    cursor.expect(b" \\= ")?;
    let name = name(alloc, cursor, names)?;
    cursor.expect(b"/")?;
    let arity = cursor.number()?;
    if arity == 0 {
        return Err(Stop::NoForm);
    }
    Ok(shape_con(variable, name, arity))
}

/// Takes a variable that has not a shape.
fn not_shape(alloc: Global, cursor: &mut Cursor<'_>, names: &Names) -> Result<Con, Stop>
    ensures { Reads (λ c. c) (spec.not_shape_at (place_in names.now) cursor.old) result cursor.new }
{
    let Some(Token::Variable(variable)) = cursor.next() else {
        return Err(Stop::NoForm);
    };
    cursor.take();
    shape(alloc, variable, cursor, names)
}

/// The shape that a variable has not which differs from a constant.
fn constant_shape(first: &Term, second: &Term) -> Option<Con>
    ensures { result ≡ constant_shape (tm_of first.now) (tm_of second.now) }
{
    let Term::Var(x) = first else {
        return None;
    };
    match second {
        Term::App(name, terms) if terms.len() == 0 => Some(Con::NotShape(*x, *name, 0)),
        Term::Var(_) | Term::Num(_) | Term::App(_, _) => None,
    }
}

/// The disequation of two terms; of a variable and a constant it is a shape.
#[tactic(auto, using(crate::proofs::FormsLemmas::ConLemmas::unequal_by))]
fn unequal(first: Term, second: Term) -> Con
    ensures { result ≡ spec.unequal (tm_of first) (tm_of second) }
{
    match constant_shape(&first, &second) {
        Some(shape) => shape,
        None => Con::Neq(first, second),
    }
}

/// Takes the second of two terms that are equal.
#[tactic(auto, using(crate::proofs::FormsLemmas::ConLemmas::term_back))]
fn equal_to(alloc: Global, first: Term, cursor: &mut Cursor<'_>, names: &Names) -> Result<Con, Stop>
    ensures { Reads (λ c. c) (made (λ s. con.Eq (spec.term_of (tm_of first)) (spec.term_of s)) (term_at (place_in names.now) cursor.old)) result cursor.new }
{
    let second = term(alloc, cursor, names)?;
    Ok(Con::Eq(first, second))
}

/// Takes the second of two terms that differ, behind their sign.
fn unequal_to(
    alloc: Global,
    first: Term,
    cursor: &mut Cursor<'_>,
    names: &Names,
) -> Result<Con, Stop>
    ensures { Reads (λ c. c) (keyed (codes " \\= ") (term_at (place_in names.now)) (spec.unequal (tm_of first)) cursor.old) result cursor.new }
{
    cursor.expect(b" \\= ")?;
    let second = term(alloc, cursor, names)?;
    Ok(unequal(first, second))
}

/// Takes what stands behind the first of two terms.
fn related_to(
    alloc: Global,
    first: Term,
    cursor: &mut Cursor<'_>,
    names: &Names,
) -> Result<Con, Stop>
    ensures { Reads (λ c. c) (spec.related_to (place_in names.now) (tm_of first) cursor.old) result cursor.new }
{
    if cursor.skips(b" = ") {
        equal_to(alloc, first, cursor, names)
    } else {
        unequal_to(alloc, first, cursor, names)
    }
}

/// Takes two terms and their relation.
fn related(alloc: Global, cursor: &mut Cursor<'_>, names: &Names) -> Result<Con, Stop>
    ensures { Reads (λ c. c) (spec.related_at (place_in names.now) cursor.old) result cursor.new }
{
    let first = term(alloc, cursor, names)?;
    related_to(alloc, first, cursor, names)
}

/// Takes a term and the bracket behind it.
fn term_in_bracket(alloc: Global, cursor: &mut Cursor<'_>, names: &Names) -> Result<Term, Stop>
    ensures { Reads tm_of (until (codes ")") (term_at (place_in names.now)) cursor.old) result cursor.new }
{
    let term = term(alloc, cursor, names)?;
    cursor.expect(b")")?;
    Ok(term)
}

/// Takes a term that is a number, behind `num(`.
#[tactic(auto, using(crate::proofs::FormsLemmas::ConLemmas::term_back))]
fn num(alloc: Global, cursor: &mut Cursor<'_>, names: &Names) -> Result<Con, Stop>
    ensures { Reads (λ c. c) (made (λ t. con.Num (spec.term_of t)) (until (codes ")") (term_at (place_in names.now)) cursor.old)) result cursor.new }
{
    let term = term_in_bracket(alloc, cursor, names)?;
    Ok(Con::Num(term))
}

/// Takes a term that is no number.
#[tactic(auto, using(crate::proofs::FormsLemmas::ConLemmas::term_back))]
fn not_num(alloc: Global, cursor: &mut Cursor<'_>, names: &Names) -> Result<Con, Stop>
    ensures { Reads (λ c. c) (keyed (codes "not num(") (until (codes ")") (term_at (place_in names.now))) (λ t. con.NotNum (spec.term_of t)) cursor.old) result cursor.new }
{
    cursor.expect(b"not num(")?;
    let term = term_in_bracket(alloc, cursor, names)?;
    Ok(Con::NotNum(term))
}

/// Takes that a term is a number, or that it is none.
fn typed(alloc: Global, cursor: &mut Cursor<'_>, names: &Names) -> Result<Con, Stop>
    ensures { Reads (λ c. c) (spec.typed_at (place_in names.now) cursor.old) result cursor.new }
{
    if cursor.skips(b"num(") {
        num(alloc, cursor, names)
    } else {
        not_num(alloc, cursor, names)
    }
}

/// Takes a constraint on terms; what has none of these forms is one on types.
fn term_con(alloc: Global, cursor: &mut Cursor<'_>, names: &Names) -> Result<Con, Stop>
    ensures { Reads (λ c. c) (any_of (spec.related_at (place_in names.now) ∷ spec.typed_at (place_in names.now) ∷ []) cursor.old) result cursor.new }
{
    let mut ahead = cursor.again();
    match related(alloc, &mut ahead, names) {
        Ok(con) => {
            *cursor = ahead;
            Ok(con)
        }
        Err(Stop::NoForm) => typed(alloc, cursor, names),
        Err(Stop::Memory) => Err(Stop::Memory),
    }
}

/// Takes a constraint that is no row.
fn other_con(alloc: Global, cursor: &mut Cursor<'_>, names: &Names) -> Result<Con, Stop>
    ensures { Reads (λ c. c) (any_of (spec.not_shape_at (place_in names.now) ∷ spec.related_at (place_in names.now) ∷ spec.typed_at (place_in names.now) ∷ []) cursor.old) result cursor.new }
{
    let mut ahead = cursor.again();
    match not_shape(alloc, &mut ahead, names) {
        Ok(con) => {
            *cursor = ahead;
            Ok(con)
        }
        Err(Stop::NoForm) => term_con(alloc, cursor, names),
        Err(Stop::Memory) => Err(Stop::Memory),
    }
}

/// Takes a constraint.
pub fn constraint(alloc: Global, cursor: &mut Cursor<'_>, names: &Names) -> Result<Con, Stop>
    ensures { Reads (λ c. c) (spec.con_at (place_in names.now) cursor.old) result cursor.new }
{
    let mut ahead = cursor.again();
    match row_con(alloc, &mut ahead) {
        Ok(con) => {
            *cursor = ahead;
            Ok(con)
        }
        Err(Stop::NoForm) => other_con(alloc, cursor, names),
        Err(Stop::Memory) => Err(Stop::Memory),
    }
}
