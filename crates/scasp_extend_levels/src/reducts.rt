//! Reducts of rules over numbers.
ghost use Rattle.std.specs.Prelude.{◌≡◌, ◌++◌, IfOk, OnOk};
ghost use Rattle.scasp_extend_levels.specs.Numbered.{body_left, fails, number_left, reduced, reduct, stays};
ghost use Rattle.scasp_worklist.specs.Numbered.{has};

use crate::numbered::{NumberedClause, NumberedLit};
use crate::standings::{Standing, standing_at};
use scasp_list::Sequence;
use scasp_name::Memory;
use scasp_worklist::{NumberList, NumberSet, NumberedRule, NumberedRules};
use std::alloc::Global;

/// Whether the literal is false by what is known, or, where nothing is known of its atom, is negated and its atom in the set.
fn fails(standings: &[Standing], set: &NumberSet, literal: &NumberedLit) -> bool
    ensures { result ≡ fails standings.now (has set.now) literal.now }
{
    match standing_at(standings, literal.atom).known {
        Some(truth) => truth != literal.positive,
        None => !literal.positive && set.contains(literal.atom),
    }
}

/// Whether the literal is positive, and nothing is known of its atom.
fn stays(standings: &[Standing], literal: &NumberedLit) -> bool
    ensures { result ≡ stays standings.now literal.now }
{
    standing_at(standings, literal.atom).known.is_none() && literal.positive
}

/// Puts the number of the literal at the end, if it stays.
fn put_if_stays(
    standings: &[Standing],
    literal: &NumberedLit,
    kept: &mut NumberList,
) -> Result<(), Memory>
    ensures { OnOk result (kept.new ≡ kept.old ++ number_left standings.now literal.now) }
{
    if stays(standings, literal) {
        kept.push(literal.atom)?;
    }
    Ok(())
}

/// The numbers of the literals that stay, unless one fails.
fn body_left(
    alloc: Global,
    standings: &[Standing],
    set: &NumberSet,
    body: &[NumberedLit],
) -> Result<Option<NumberList>, Memory>
    ensures { IfOk result (λ made. made ≡ body_left standings.now (has set.now) body.now) }
{
    let mut kept = Sequence::new(alloc);
    for literal in body {
        if fails(standings, set, literal) {
            return Ok(None);
        }
        put_if_stays(standings, literal, &mut kept)?;
    }
    Ok(Some(kept))
}

/// Puts what the rule leaves in the reduct by the set at the end, where its head has this sign.
fn push_reduced(
    alloc: Global,
    standings: &[Standing],
    plus: bool,
    set: &NumberSet,
    rule: &NumberedClause,
    made: &mut NumberedRules,
) -> Result<(), Memory>
    ensures { OnOk result (made.new ≡ made.old ++ reduced standings.now plus (has set.now) rule.now) }
{
    if plus != standing_at(standings, rule.head).plus {
        return Ok(());
    }
    match body_left(alloc, standings, set, rule.body.as_slice())? {
        Some(body) => {
            made.push(NumberedRule {
                head: rule.head,
                body,
            })?;
            Ok(())
        }
        None => Ok(()),
    }
}

/// The reduct, by the set, of the rules for atoms of this sign, with the literals of lower levels read.
pub(crate) fn reduct(
    alloc: Global,
    standings: &[Standing],
    plus: bool,
    set: &NumberSet,
    rules: &[NumberedClause],
) -> Result<NumberedRules, Memory>
    ensures { IfOk result (λ made. made ≡ reduct standings.now plus (has set.now) rules.now) }
{
    let mut made = Sequence::new(alloc);
    for rule in rules {
        push_reduced(alloc, standings, plus, set, rule, &mut made)?;
    }
    Ok(made)
}
