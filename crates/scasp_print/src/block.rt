//! The whole block of a certificate.
ghost use Rattle.std.specs.Prelude.{◌≡◌, ◌++◌, OnOk, IfOk, flat_map, codes};
ghost use Rattle.scasp_cert.specs.Certificate.{certificate_of, check_of, checks_of};
ghost use Rattle.scasp_cert.specs.Text.Terms.{list_text};
ghost use Rattle.scasp_cert.specs.Text.Block as spec;

use crate::constraints::put_con;
use crate::hints::put_hint;
use crate::terms::{put_list, put_minus};
use crate::trees::{put_case, put_nodes};
use scasp_cert::{Cert, Check, Checks, Clash, Clashes};
use scasp_name::{Memory, Names};
use scasp_print_words::{put, put_name, put_number};
use scasp_syntax::{Con, Cons, Pred, PredMap, PredMaps, Terms};
use std::alloc::Global;

#[tactic(auto, unfolding(scasp_cert::specs::Text::Block::answer_line))]
fn put_answer_line(out: &mut Vec<u8>, names: &Names, cert: &Cert, answer: u64) -> Result<(), Memory>
    ensures { OnOk result (out.new.items ≡ out.old.items ++ spec.answer_line names.now (certificate_of cert.now) answer) }
{
    put(out, "answer ")?;
    put_number(out, cert.query)?;
    put(out, ".")?;
    put_number(out, answer)?;
    put(out, " ")?;
    put_list(out, names, &cert.terms)?;
    put(out, "\n")
}

#[tactic(auto, unfolding(scasp_cert::specs::Text::Block::given_line))]
fn put_given_line(out: &mut Vec<u8>, names: &Names, con: &Con) -> Result<(), Memory>
    ensures { OnOk result (out.new.items ≡ out.old.items ++ spec.given_line names.now con.now) }
{
    put(out, "given ")?;
    put_con(out, names, con)?;
    put(out, "\n")
}

fn put_given(out: &mut Vec<u8>, names: &Names, given: &Cons) -> Result<(), Memory>
    ensures { OnOk result (out.new.items ≡ out.old.items ++ flat_map (spec.given_line names.now) given.now) }
{
    for con in given.as_slice() {
        put_given_line(out, names, con)?;
    }
    Ok(())
}

fn put_sample(out: &mut Vec<u8>, names: &Names, sample: &Terms) -> Result<(), Memory>
    ensures { OnOk result (out.new.items ≡ out.old.items ++ (codes "sample " ++ list_text names.now sample.now ++ codes "\ntree\n")) }
{
    put(out, "sample ")?;
    put_list(out, names, sample)?;
    put(out, "\ntree\n")
}

#[tactic(auto, unfolding(scasp_cert::specs::Text::Block::check_text))]
fn put_check(out: &mut Vec<u8>, names: &Names, check: &Check) -> Result<(), Memory>
    ensures { OnOk result (out.new.items ≡ out.old.items ++ spec.check_text names.now (check_of check.now)) }
{
    put(out, "check ")?;
    put_number(out, check.clause)?;
    put(out, "\n")?;
    put_case(out, names, 1, &check.case)
}

fn put_checks(out: &mut Vec<u8>, names: &Names, checks: &Checks) -> Result<(), Memory>
    ensures { OnOk result (out.new.items ≡ out.old.items ++ flat_map (spec.check_text names.now) (checks_of checks.now)) }
{
    for check in checks.as_slice() {
        put_check(out, names, check)?;
    }
    Ok(())
}

#[tactic(auto, unfolding(scasp_cert::specs::Text::Block::clash_line))]
fn put_clash_line(out: &mut Vec<u8>, clash: &Clash) -> Result<(), Memory>
    ensures { OnOk result (out.new.items ≡ out.old.items ++ spec.clash_line clash.now) }
{
    put(out, "clash ")?;
    put_number(out, clash.first)?;
    put(out, " ")?;
    put_number(out, clash.second)?;
    put(out, " ")?;
    put_hint(out, &clash.hint)?;
    put(out, "\n")
}

fn put_clashes(out: &mut Vec<u8>, clashes: &Clashes) -> Result<(), Memory>
    ensures { OnOk result (out.new.items ≡ out.old.items ++ flat_map spec.clash_line clashes.now) }
{
    for clash in clashes.as_slice() {
        put_clash_line(out, clash)?;
    }
    Ok(())
}

#[tactic(auto, unfolding(scasp_cert::specs::Text::Block::pred_text))]
fn put_pred(out: &mut Vec<u8>, names: &Names, pred: Pred) -> Result<(), Memory>
    ensures { OnOk result (out.new.items ≡ out.old.items ++ spec.pred_text names.now pred) }
{
    put_minus(out, pred.minus)?;
    put_name(out, names, pred.name)?;
    put(out, "/")?;
    put_number(out, pred.arity)
}

#[tactic(auto, unfolding(scasp_cert::specs::Text::Block::map_line))]
fn put_map_line(out: &mut Vec<u8>, names: &Names, line: PredMap) -> Result<(), Memory>
    ensures { OnOk result (out.new.items ≡ out.old.items ++ spec.map_line names.now line) }
{
    put(out, "map ")?;
    put_pred(out, names, line.pred)?;
    put(out, " ")?;
    put_number(out, line.level)?;
    put(out, if line.plus { " +\n" } else { " -\n" })
}

fn put_map(out: &mut Vec<u8>, names: &Names, map: &PredMaps) -> Result<(), Memory>
    ensures { OnOk result (out.new.items ≡ out.old.items ++ flat_map (spec.map_line names.now) map.now) }
{
    for line in map.as_slice() {
        put_map_line(out, names, *line)?;
    }
    Ok(())
}

fn put_block(out: &mut Vec<u8>, names: &Names, cert: &Cert, answer: u64) -> Result<(), Memory>
    ensures { OnOk result (out.new.items ≡ out.old.items ++ spec.block_text names.now (certificate_of cert.now) answer) }
{
    put_answer_line(out, names, cert, answer)?;
    put_given(out, names, &cert.given)?;
    put_sample(out, names, &cert.sample)?;
    put_nodes(out, names, 1, &cert.trees)?;
    put_checks(out, names, &cert.checks)?;
    put_clashes(out, &cert.clashes)?;
    put_map(out, names, &cert.map)?;
    put(out, "end\n")
}

/// The certificate as text: the lines from `answer` to `end`, each with its line feed, as answer
/// number `answer` to its query. A name that the table lacks is written as the empty text, `''`.
pub fn print_cert(alloc: Global, names: &Names, cert: &Cert, answer: u64) -> Result<Vec<u8>, Memory>
    ensures { IfOk result (λ text. text.items ≡ spec.block_text names.now (certificate_of cert.now) answer) }
{
    let mut out = Vec::new(alloc);
    put_block(&mut out, names, cert, answer)?;
    Ok(out)
}
