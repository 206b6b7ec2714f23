//! Comparisons.
ghost use Rattle.std.specs.Prelude.{◌≡◌, option_copied, IfOk};
ghost use Rattle.scasp_reader_terms.specs.Steps.{Does, place_of};
ghost use Rattle.scasp_reader.specs.Bodies.Items.{relation, some_row, row_between, right_side, comparison};

use crate::bodies::atoms::DEPTH_LIMIT;
use scasp_list::Memory;
use scasp_num::{Op, Rat, RatPairs, Row, RowErr};
use scasp_reader_expressions::{Sum, Value, expression, row_at, united};
use scasp_reader_terms::{Reader, Stop};
use scasp_reader_tokens::{Sign, Token};
use scasp_syntax::{Item, Lin};
use std::alloc::Global;

/// How the difference of two sides compares with 0: of the left side less the right one, or, where it is turned, of
/// the right side less the left one.
#[derive(Clone, Copy, Debug, PartialEq, Eq)]
pub struct Relation {
    pub op: Op,
    pub is_turned: bool,
}

/// The relation that the token is.
pub(crate) fn relation_of(token: Option<&Token>) -> Option<Relation>
    ensures { result ≡ relation (option_copied token.entry) }
{
    let Some(Token::Sign(sign)) = token else {
        return None;
    };
    match sign {
        Sign::Relation(op, is_turned) => Some(Relation {
            op: *op,
            is_turned: *is_turned,
        }),
        Sign::Open
        | Sign::Close
        | Sign::OpenList
        | Sign::CloseList
        | Sign::Comma
        | Sign::Bar
        | Sign::Plus
        | Sign::Minus
        | Sign::Times
        | Sign::Over
        | Sign::If
        | Sign::Query
        | Sign::Equal
        | Sign::Differ
        | Sign::Stop
        | Sign::Foreign => None,
    }
}

/// The row 0 = 0.
fn zero_row(alloc: Global) -> Result<Row, Memory>
    ensures { IfOk result (λ row. row ≡ some_row None) }
{
    let Ok(zero) = Rat::new(0, 1) else {
        unreachable!()
    };
    match Row::normal(alloc, &RatPairs::new(alloc), &zero, Op::Eq) {
        Ok(row) => Ok(row),
        Err(RowErr::Memory) => Err(Memory),
        Err(RowErr::Overflow) => unreachable!(),
    }
}

/// The row, or any where a fault was noted.
fn some_row(alloc: Global, row: Option<Row>) -> Result<Row, Memory>
    ensures { IfOk result (λ found. found ≡ some_row row) }
{
    match row {
        Some(row) => Ok(row),
        None => zero_row(alloc),
    }
}

/// `expression relation expression`
pub(crate) fn comparison(reader: &mut Reader<'_>, alloc: Global) -> Result<Item, Stop>
    ensures { Does (λ x. x) comparison reader.old result reader.new }
{
    let left = expression(reader, alloc, DEPTH_LIMIT)?;
    let Some(relation) = relation_of(reader.token()) else {
        return Err(Stop::At(reader.unexpected()));
    };
    right_side(reader, alloc, left, relation)
}

/// The right side, where the relation is the next token.
fn right_side(
    reader: &mut Reader<'_>,
    alloc: Global,
    left: Value,
    relation: Relation,
) -> Result<Item, Stop>
    ensures { Does (λ x. x) (right_side left (place_of reader.old.tokens) relation) reader.old result reader.new }
{
    let at = reader.at();
    reader.take();
    let right = expression(reader, alloc, DEPTH_LIMIT)?;
    let Value {
        variables: first,
        sum: a,
    } = left;
    let Value {
        variables: second,
        sum: b,
    } = right;
    let row = row_between(reader, alloc, relation, at, a, b)?;
    let vars = united(alloc, first, second.as_slice())?;
    let row = some_row(alloc, row)?;
    Ok(Item::Linear(Lin { vars, row }))
}

/// The row between two sides, by the relation, which stands at this place; None where a fault was noted.
fn row_between(
    reader: &mut Reader<'_>,
    alloc: Global,
    relation: Relation,
    at: u64,
    a: Option<Sum>,
    b: Option<Sum>,
) -> Result<Option<Row>, Stop>
    ensures { Does (λ x. x) (row_between relation at a b) reader.old result reader.new }
{
    if relation.is_turned {
        row_at(reader, alloc, relation.op, at, b, &a)
    } else {
        row_at(reader, alloc, relation.op, at, a, &b)
    }
}
