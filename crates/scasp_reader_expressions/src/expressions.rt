//! Expressions.
ghost use Rattle.std.specs.Prelude.{◌≡◌, option_copied, IfOk, Err};
ghost use Rattle.scasp_reader_terms.specs.Steps.{Does, place_of, token_of};
ghost use Rattle.scasp_reader_terms.specs.Terms.{below};
ghost use Rattle.scasp_reader_expressions.specs.Expressions.{variable_value, variable_factor, number_factor, bracket_in, no_operand, factor_at_sign, factor, operation_behind, chain, factor_operation, product_operation, product, expression};

use crate::sums::{Operation, constant_sum, variable_sum};
use crate::values::{Value, negated, operated};
use scasp_list::Memory;
use scasp_num::RowErr;
use scasp_reader_terms::{Count, Kind, Reader, Stop};
use scasp_reader_tokens::{Sign, Token};
use scasp_syntax::VarList;
use std::alloc::Global;

/// An expression, where `room` brackets may be opened inside one another.
#[cycle(expression)]
pub fn expression(reader: &mut Reader<'_>, alloc: Global, room: u64) -> Result<Value, Stop>
    ensures { Does (λ x. x) (expression room) reader.old result reader.new }
{
    let minus = reader.taken(Sign::Minus);
    let first = product(reader, alloc, room)?;
    let value = negated(alloc, minus, first)?;
    products_behind(reader, alloc, room, value)
}

/// `{("+" | "-") product}`
#[cycle(expression)]
fn products_behind(
    reader: &mut Reader<'_>,
    alloc: Global,
    room: u64,
    first: Value,
) -> Result<Value, Stop>
    ensures { Does (λ x. x) (chain product_operation (product (below expression room)) first) reader.old result reader.new }
{
    let mut value = first;
    let mut left = reader.left();
    while left > 0 {
        let Some(operation) = product_operation(reader.token()) else {
            return Ok(value);
        };
        value = product_behind(reader, alloc, room, operation, value)?;
        left -= 1;
    }
    Ok(value)
}

#[cycle(expression)]
fn product_behind(
    reader: &mut Reader<'_>,
    alloc: Global,
    room: u64,
    operation: Operation,
    value: Value,
) -> Result<Value, Stop>
    ensures { Does (λ x. x) (operation_behind (product (below expression room)) operation (place_of reader.old.tokens) value) reader.old result reader.new }
{
    let at = reader.at();
    reader.take();
    let operand = product(reader, alloc, room)?;
    operated(reader, alloc, operation, at, value, operand)
}

/// `factor {("*" | "/") factor}`
#[cycle(expression)]
fn product(reader: &mut Reader<'_>, alloc: Global, room: u64) -> Result<Value, Stop>
    ensures { Does (λ x. x) (product (below expression room)) reader.old result reader.new }
{
    let first = factor(reader, alloc, room)?;
    factors_behind(reader, alloc, room, first)
}

/// `{("*" | "/") factor}`
#[cycle(expression)]
fn factors_behind(
    reader: &mut Reader<'_>,
    alloc: Global,
    room: u64,
    first: Value,
) -> Result<Value, Stop>
    ensures { Does (λ x. x) (chain factor_operation (factor (below expression room)) first) reader.old result reader.new }
{
    let mut value = first;
    let mut left = reader.left();
    while left > 0 {
        let Some(operation) = factor_operation(reader.token()) else {
            return Ok(value);
        };
        value = factor_behind(reader, alloc, room, operation, value)?;
        left -= 1;
    }
    Ok(value)
}

#[cycle(expression)]
fn factor_behind(
    reader: &mut Reader<'_>,
    alloc: Global,
    room: u64,
    operation: Operation,
    value: Value,
) -> Result<Value, Stop>
    ensures { Does (λ x. x) (operation_behind (factor (below expression room)) operation (place_of reader.old.tokens) value) reader.old result reader.new }
{
    let at = reader.at();
    reader.take();
    let operand = factor(reader, alloc, room)?;
    operated(reader, alloc, operation, at, value, operand)
}

/// `number | variable | "(" expression ")"`
#[cycle(expression)]
fn factor(reader: &mut Reader<'_>, alloc: Global, room: u64) -> Result<Value, Stop>
    ensures { Does (λ x. x) (factor (below expression room)) reader.old result reader.new }
{
    let Some(token) = reader.token() else {
        return Err(Stop::At(reader.unexpected()));
    };
    match token {
        Token::Number(_) => number_factor(reader, alloc),
        Token::Variable(text) => variable_factor(reader, alloc, text.as_str()),
        Token::Name(_) => Err(no_operand(reader)),
        Token::Sign(sign) => factor_at_sign(reader, alloc, room, *sign),
        Token::Not
        | Token::Abducible
        | Token::SkippedDirective
        | Token::UnclosedDirective
        | Token::OtherDirective
        | Token::BadByte
        | Token::Unclosed
        | Token::End => Err(Stop::At(reader.unexpected())),
    }
}

#[cycle(expression)]
fn factor_at_sign(
    reader: &mut Reader<'_>,
    alloc: Global,
    room: u64,
    sign: Sign,
) -> Result<Value, Stop>
    ensures { Does (λ x. x) (factor_at_sign (below expression room) sign) reader.old result reader.new }
{
    match sign {
        Sign::Open if room == 0 => {
            Err(Stop::At(reader.told(reader.at(), Kind::Limit(Count::Depth))))
        }
        Sign::Open => bracket(reader, alloc, room - 1),
        Sign::OpenList => Err(no_operand(reader)),
        Sign::Close
        | Sign::CloseList
        | Sign::Comma
        | Sign::Bar
        | Sign::Plus
        | Sign::Minus
        | Sign::Times
        | Sign::Over
        | Sign::If
        | Sign::Query
        | Sign::Equal
        | Sign::Differ
        | Sign::Stop
        | Sign::Relation(_, _)
        | Sign::Foreign => Err(Stop::At(reader.unexpected())),
    }
}

/// `"(" expression ")"`
#[cycle(expression)]
fn bracket(reader: &mut Reader<'_>, alloc: Global, room: u64) -> Result<Value, Stop>
    ensures { Does (λ x. x) (bracket_in (expression room)) reader.old result reader.new }
{
    reader.expect(Sign::Open)?;
    let outer = reader.set_list(false);
    let value = expression(reader, alloc, room)?;
    reader.expect(Sign::Close)?;
    reader.set_list(outer);
    Ok(value)
}

/// Why reading stops at a name or a list, which no relation has as an operand.
fn no_operand(reader: &Reader<'_>) -> Stop
    ensures { Does (λ x. x) no_operand reader.now (Err result) reader.now }
{
    Stop::At(reader.told(reader.at(), Kind::NotLinear))
}

fn number_factor(reader: &mut Reader<'_>, alloc: Global) -> Result<Value, Stop>
    ensures { Does (λ x. x) number_factor reader.old result reader.new }
{
    let variables = VarList::new(alloc);
    match reader.number()? {
        Some(number) => Ok(Value {
            variables,
            sum: Some(constant_sum(alloc, number)),
        }),
        None => Ok(Value {
            variables,
            sum: None,
        }),
    }
}

fn variable_factor(reader: &mut Reader<'_>, alloc: Global, text: &str) -> Result<Value, Stop>
    ensures { Does (λ x. x) (variable_factor (place_of reader.old.tokens) text.now) reader.old result reader.new }
{
    let at = reader.at();
    reader.take();
    let x = reader.variable_at(alloc, at, text)?;
    let value = variable_value(alloc, reader.has_own_number(x), x)?;
    Ok(value)
}

/// The value that is a variable; a number that variables share has none.
fn variable_value(alloc: Global, is_own: bool, x: u64) -> Result<Value, Memory>
    ensures { IfOk result (λ value. value ≡ variable_value is_own x) }
{
    let mut variables = VarList::new(alloc);
    variables.push(x)?;
    if !is_own {
        return Ok(Value {
            variables,
            sum: None,
        });
    }
    match variable_sum(alloc, x) {
        Ok(sum) => Ok(Value {
            variables,
            sum: Some(sum),
        }),
        Err(RowErr::Overflow) => Ok(Value {
            variables,
            sum: None,
        }),
        Err(RowErr::Memory) => Err(Memory),
    }
}

/// `*` or `/`
fn factor_operation(token: Option<&Token>) -> Option<Operation>
    ensures { result ≡ factor_operation (option_copied token.entry) }
{
    let Some(Token::Sign(sign)) = token else {
        return None;
    };
    match sign {
        Sign::Times => Some(Operation::Times),
        Sign::Over => Some(Operation::Over),
        Sign::Open
        | Sign::Close
        | Sign::OpenList
        | Sign::CloseList
        | Sign::Comma
        | Sign::Bar
        | Sign::Plus
        | Sign::Minus
        | Sign::If
        | Sign::Query
        | Sign::Equal
        | Sign::Differ
        | Sign::Stop
        | Sign::Relation(_, _)
        | Sign::Foreign => None,
    }
}

/// `+` or `-`
fn product_operation(token: Option<&Token>) -> Option<Operation>
    ensures { result ≡ product_operation (option_copied token.entry) }
{
    let Some(Token::Sign(sign)) = token else {
        return None;
    };
    match sign {
        Sign::Plus => Some(Operation::Plus),
        Sign::Minus => Some(Operation::Minus),
        Sign::Open
        | Sign::Close
        | Sign::OpenList
        | Sign::CloseList
        | Sign::Comma
        | Sign::Bar
        | Sign::Times
        | Sign::Over
        | Sign::If
        | Sign::Query
        | Sign::Equal
        | Sign::Differ
        | Sign::Stop
        | Sign::Relation(_, _)
        | Sign::Foreign => None,
    }
}
