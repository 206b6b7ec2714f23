//! Items of bodies.
ghost use Rattle.std.specs.Prelude.{◌≡◌, ◌++◌, [], true, OnOk, if◌then◌else◌};
ghost use Rattle.scasp_cert.specs.Text.Constraints.{plus_text, factor_text, relation_text};
ghost use Rattle.scasp_print_program.specs.Items as spec;

use crate::pieces::put_variable;
use crate::style::Shown;
use crate::terms::{put_lit, put_term};
use scasp_list::Memory;
use scasp_num::{Op, Row};
use scasp_print_words::{put, put_integer, put_separator};
use scasp_reader::DEPTH_LIMIT;
use scasp_syntax::{Item, Items, Lin, VarList};

fn put_plus(out: &mut Vec<u8>, number: i128) -> Result<(), Memory>
    ensures { OnOk result (out.new.items ≡ out.old.items ++ plus_text number) }
{
    put(out, if number < 0 { "" } else { "+" })
}

fn put_factor(out: &mut Vec<u8>, number: i128) -> Result<(), Memory>
    ensures { OnOk result (out.new.items ≡ out.old.items ++ factor_text number) }
{
    if number == 1 {
        Ok(())
    } else if number == -1 {
        put(out, "-")
    } else {
        put_integer(out, number)?;
        put(out, "*")
    }
}

fn put_sign(out: &mut Vec<u8>, is_first: bool, number: i128) -> Result<(), Memory>
    ensures { OnOk result (out.new.items ≡ out.old.items ++ (if is_first then [] else plus_text number)) }
{
    if is_first {
        Ok(())
    } else {
        put_plus(out, number)
    }
}

/// Puts a coefficient and its variable at the end.
fn put_summand(
    out: &mut Vec<u8>,
    shown: &Shown<'_>,
    is_first: bool,
    var: u64,
    number: i128,
) -> Result<(), Memory>
    ensures { OnOk result (out.new.items ≡ out.old.items ++ spec.summand_text shown.now is_first var number) }
{
    put_sign(out, is_first, number)?;
    put_factor(out, number)?;
    put_variable(out, shown, var)
}

/// Puts each of the variables with its coefficient at the end.
fn put_summands(
    out: &mut Vec<u8>,
    shown: &Shown<'_>,
    row: &Row,
    vars: &VarList,
) -> Result<(), Memory>
    ensures { OnOk result (out.new.items ≡ out.old.items ++ spec.summands_text shown.now row.now true vars.now) }
{
    let mut is_first = true;
    for var in vars.as_slice() {
        put_summand(out, shown, is_first, *var, row.coefficient(*var))?;
        is_first = false;
    }
    Ok(())
}

fn put_constant_part(out: &mut Vec<u8>, vars: &VarList, constant: i128) -> Result<(), Memory>
    ensures { OnOk result (out.new.items ≡ out.old.items ++ spec.constant_part vars.now constant) }
{
    if vars.len() == 0 {
        put_integer(out, constant)
    } else if constant == 0 {
        Ok(())
    } else {
        put_plus(out, constant)?;
        put_integer(out, constant)
    }
}

fn put_relation(out: &mut Vec<u8>, op: Op) -> Result<(), Memory>
    ensures { OnOk result (out.new.items ≡ out.old.items ++ relation_text op) }
{
    match op {
        Op::Eq => put(out, "#="),
        Op::Lt => put(out, "#<"),
        Op::Le => put(out, "#=<"),
        Op::Ne => put(out, "#<>"),
    }
}

#[tactic(auto, unfolding(crate::specs::Items::linear_text))]
fn put_linear(out: &mut Vec<u8>, shown: &Shown<'_>, linear: &Lin) -> Result<(), Memory>
    ensures { OnOk result (out.new.items ≡ out.old.items ++ spec.linear_text shown.now linear.now) }
{
    put_summands(out, shown, &linear.row, &linear.vars)?;
    put_constant_part(out, &linear.vars, linear.row.constant())?;
    put(out, " ")?;
    put_relation(out, linear.row.op())?;
    put(out, " 0")
}

fn put_item(out: &mut Vec<u8>, shown: &Shown<'_>, item: &Item) -> Result<(), Memory>
    ensures { OnOk result (out.new.items ≡ out.old.items ++ spec.item_text shown.now item.now) }
{
    match item {
        Item::Call(lit) => put_lit(out, shown, lit),
        Item::Equal(left, right) => {
            put_term(out, shown, DEPTH_LIMIT, left)?;
            put(out, " = ")?;
            put_term(out, shown, DEPTH_LIMIT, right)
        }
        Item::Differ(left, right) => {
            put_term(out, shown, DEPTH_LIMIT, left)?;
            put(out, " \\= ")?;
            put_term(out, shown, DEPTH_LIMIT, right)
        }
        Item::Linear(linear) => put_linear(out, shown, linear),
    }
}

/// Puts items at the end, with commas between them.
pub fn put_items(out: &mut Vec<u8>, shown: &Shown<'_>, items: &Items) -> Result<(), Memory>
    ensures { OnOk result (out.new.items ≡ out.old.items ++ spec.items_text shown.now true items.now) }
{
    let mut is_first = true;
    for item in items.as_slice() {
        put_separator(out, is_first, ", ")?;
        put_item(out, shown, item)?;
        is_first = false;
    }
    Ok(())
}
