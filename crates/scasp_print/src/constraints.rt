//! Rows and other constraints.
ghost use Rattle.std.specs.Prelude.{◌≡◌, ◌++◌, [], true, OnOk, if◌then◌else◌, codes};
ghost use Rattle.scasp_syntax.specs.View.{tm_of};
ghost use Rattle.scasp_cert.specs.Text.Terms.{term_text};
ghost use Rattle.scasp_cert.specs.Text.Constraints as spec;

use crate::pieces::put_var;
use crate::terms::put_term;
use scasp_name::{Memory, NameId, Names};
use scasp_num::{Coeff, Coeffs, Op, Row};
use scasp_print_words::{put, put_constant, put_integer, put_name, put_number};
use scasp_syntax::{Con, Term};

fn put_plus(out: &mut Vec<u8>, number: i128) -> Result<(), Memory>
    ensures { OnOk result (out.new.items ≡ out.old.items ++ spec.plus_text number) }
{
    if number < 0 { Ok(()) } else { put(out, "+") }
}

fn put_factor(out: &mut Vec<u8>, number: i128) -> Result<(), Memory>
    ensures { OnOk result (out.new.items ≡ out.old.items ++ spec.factor_text number) }
{
    if number == 1 {
        Ok(())
    } else if number == -1 {
        put(out, "-")
    } else {
        put_integer(out, number)?;
        put(out, "*")
    }
}

fn put_sign(out: &mut Vec<u8>, is_first: bool, number: i128) -> Result<(), Memory>
    ensures { OnOk result (out.new.items ≡ out.old.items ++ (if is_first then [] else spec.plus_text number)) }
{
    if is_first {
        Ok(())
    } else {
        put_plus(out, number)
    }
}

fn put_summand(out: &mut Vec<u8>, is_first: bool, summand: Coeff) -> Result<(), Memory>
    ensures { OnOk result (out.new.items ≡ out.old.items ++ spec.summand_text is_first summand) }
{
    put_sign(out, is_first, summand.c)?;
    put_factor(out, summand.c)?;
    put_var(out, summand.x)
}

fn put_summands(out: &mut Vec<u8>, summands: &Coeffs) -> Result<(), Memory>
    ensures { OnOk result (out.new.items ≡ out.old.items ++ spec.summands_text true summands.now) }
{
    let mut is_first = true;
    for summand in summands.as_slice() {
        put_summand(out, is_first, *summand)?;
        is_first = false;
    }
    Ok(())
}

fn put_constant_part(out: &mut Vec<u8>, summands: &Coeffs, constant: i128) -> Result<(), Memory>
    ensures { OnOk result (out.new.items ≡ out.old.items ++ spec.constant_part summands.now constant) }
{
    if summands.len() == 0 {
        put_integer(out, constant)
    } else if constant == 0 {
        Ok(())
    } else {
        put_plus(out, constant)?;
        put_integer(out, constant)
    }
}

fn put_relation(out: &mut Vec<u8>, op: Op) -> Result<(), Memory>
    ensures { OnOk result (out.new.items ≡ out.old.items ++ spec.relation_text op) }
{
    match op {
        Op::Eq => put(out, "#="),
        Op::Lt => put(out, "#<"),
        Op::Le => put(out, "#=<"),
        Op::Ne => put(out, "#<>"),
    }
}

fn put_row(out: &mut Vec<u8>, row: &Row) -> Result<(), Memory>
    ensures { OnOk result (out.new.items ≡ out.old.items ++ spec.row_text row.now) }
{
    put_summands(out, row.coeffs())?;
    put_constant_part(out, row.coeffs(), row.constant())?;
    put(out, " ")?;
    put_relation(out, row.op())?;
    put(out, " 0")
}

fn put_shape(out: &mut Vec<u8>, names: &Names, name: NameId, arity: u64) -> Result<(), Memory>
    ensures { OnOk result (out.new.items ≡ out.old.items ++ spec.shape_text names.now name arity) }
{
    if arity == 0 {
        put_constant(out, names, name)
    } else {
        put_name(out, names, name)?;
        put(out, "/")?;
        put_number(out, arity)
    }
}

fn put_equality(out: &mut Vec<u8>, names: &Names, left: &Term, right: &Term) -> Result<(), Memory>
    ensures { OnOk result (out.new.items ≡ out.old.items ++ (term_text names.now (tm_of left.now) ++ codes " = " ++ term_text names.now (tm_of right.now))) }
{
    put_term(out, names, left)?;
    put(out, " = ")?;
    put_term(out, names, right)
}

fn put_difference(out: &mut Vec<u8>, names: &Names, left: &Term, right: &Term) -> Result<(), Memory>
    ensures { OnOk result (out.new.items ≡ out.old.items ++ (term_text names.now (tm_of left.now) ++ codes " \\= " ++ term_text names.now (tm_of right.now))) }
{
    put_term(out, names, left)?;
    put(out, " \\= ")?;
    put_term(out, names, right)
}

/// Puts a constraint at the end.
pub fn put_con(out: &mut Vec<u8>, names: &Names, con: &Con) -> Result<(), Memory>
    ensures { OnOk result (out.new.items ≡ out.old.items ++ spec.con_text names.now con.now) }
{
    match con {
        Con::Eq(left, right) => put_equality(out, names, left, right),
        Con::Neq(left, right) => put_difference(out, names, left, right),
        Con::NotShape(var, name, arity) => {
            put_var(out, *var)?;
            put(out, " \\= ")?;
            put_shape(out, names, *name, *arity)
        }
        Con::Num(term) => {
            put(out, "num(")?;
            put_term(out, names, term)?;
            put(out, ")")
        }
        Con::NotNum(term) => {
            put(out, "not num(")?;
            put_term(out, names, term)?;
            put(out, ")")
        }
        Con::Row(row) => put_row(out, row),
    }
}
