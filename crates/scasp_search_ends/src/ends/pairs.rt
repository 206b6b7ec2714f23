//! Whether the literals of a certificate are apart.
ghost use Rattle.std.specs.Prelude.{◌≡◌, ◌∷◌, [], List, Some, map, not};
ghost use Rattle.scasp_search_constraints.specs.Assuming.Taken.{Gives};
ghost use Rattle.scasp_cert.specs.Certificate.{certificate_of};
ghost use Rattle.scasp_checker_rules.specs.Told.{Told};
ghost use Rattle.scasp_search_ends.specs.Ends.Inside.Apart.{all_fail, lists_behind, pairs_of};
ghost use Rattle.scasp_search_ends.specs.Ends.Inside.Behind.{Finds, key_of, mark, told_under};
ghost use Rattle.scasp_lines_walk.specs.Shown.TableView.{told_from, told_of};
ghost use Rattle.scasp_search_rules.specs.Successors.Answers.{pair_lists};

use crate::ends::behind::{Behind, Sought, found_under, items_in, key_of, mark, put_before};
use scasp_cert::Cert;
use scasp_checker_answer::clash_among;
use scasp_disjoint::{is_pair, pair_list};
use scasp_lines_walk::{Saying, table_of};
use scasp_search_constraints::{SearchErr, passes};
use scasp_syntax::{Con, Program};
use std::alloc::Global;
use std::collections::HashMap;

/// Whether two literals are apart, if they make a pair. It makes no list where they differ by a name or a number.
fn is_apart(
    alloc: Global,
    free: u64,
    given: &[Con],
    first: &Saying,
    second: &Saying,
) -> Result<bool, SearchErr>
    ensures { Gives result (all_fail (lists_behind free given.now (told_of first.now) (told_of second.now ∷ []))) (lists_behind free given.now (told_of first.now) (told_of second.now ∷ [])) }
{
    if !is_pair(first, second) {
        return Ok(true);
    }
    if clash_among(alloc, &first.atom.args, &second.atom.args)? {
        return Ok(true);
    }
    let list = pair_list(alloc, free, given, first, second)?;
    Ok(!passes(alloc, list.as_slice())?)
}

/// Whether the literal and these that make a pair with it are apart.
fn is_apart_from(
    alloc: Global,
    free: u64,
    given: &[Con],
    first: &Saying,
    seconds: &[&&Saying],
) -> Result<bool, SearchErr>
    ensures { Gives result (all_fail (lists_behind free given.now (told_of first.now) (map (λ s. told_from s.now) seconds.now))) (lists_behind free given.now (told_of first.now) (map (λ s. told_from s.now) seconds.now)) }
{
    for second in seconds {
        if !is_apart(alloc, free, given, first, second)? {
            return Ok(false);
        }
    }
    Ok(true)
}

/// Whether the literal and those of its predicate and the other sign that are sought are apart.
fn is_apart_among(
    alloc: Global,
    free: u64,
    given: &[Con],
    first: &Saying,
    behind: &Behind,
    sought: Sought,
) -> Result<bool, SearchErr>
    ensures { Gives result (all_fail (lists_behind free given.now (told_of first.now) (told_under behind.now (key_of (told_of first.now) (not first.now.positive) sought)))) (lists_behind free given.now (told_of first.now) (told_under behind.now (key_of (told_of first.now) (not first.now.positive) sought))) }
{
    let key = key_of(first, !first.positive, sought);
    let chain = found_under(behind, &key)?;
    let seconds = items_in(alloc, &chain)?;
    is_apart_from(alloc, free, given, first, seconds.as_slice())
}

/// Whether the literal, whose first argument has this mark, and those behind it that make a pair with it are apart. Those with
/// another mark differ by a name or a number.
fn is_marked_apart(
    alloc: Global,
    free: u64,
    given: &[Con],
    first: &Saying,
    behind: &Behind,
    marked: u128,
) -> Result<bool, SearchErr>
    ensures { (ts : List Told) → Finds behind.now ts → Some marked ≡ mark first.now.atom.args → Gives result (all_fail (lists_behind free given.now (told_of first.now) ts)) (lists_behind free given.now (told_of first.now) ts) }
{
    if !is_apart_among(alloc, free, given, first, behind, Sought::Marked(marked))? {
        return Ok(false);
    }
    is_apart_among(alloc, free, given, first, behind, Sought::Open)
}

/// Whether the literal and those behind it that make a pair with it are apart.
fn is_apart_behind(
    alloc: Global,
    free: u64,
    given: &[Con],
    first: &Saying,
    behind: &Behind,
) -> Result<bool, SearchErr>
    ensures { (ts : List Told) → Finds behind.now ts → Gives result (all_fail (lists_behind free given.now (told_of first.now) ts)) (lists_behind free given.now (told_of first.now) ts) }
{
    match mark(&first.atom.args) {
        None => is_apart_among(alloc, free, given, first, behind, Sought::All),
        Some(marked) => is_marked_apart(alloc, free, given, first, behind, marked),
    }
}

/// Whether the literals that make a pair are apart, from the last one back.
fn are_apart(
    alloc: Global,
    free: u64,
    given: &[Con],
    mut left: Vec<&Saying>,
) -> Result<bool, SearchErr>
    ensures { Gives result (all_fail (pairs_of free given.now (map told_from left.entry.items))) (pairs_of free given.now (map told_from left.entry.items)) }
{
    let mut behind: Behind = HashMap::new(alloc);
    while let Some(saying) = left.pop() {
        if !is_apart_behind(alloc, free, given, saying, &behind)? {
            return Ok(false);
        }
        put_before(alloc, &mut behind, saying)?;
    }
    Ok(true)
}

/// Whether each positive and each negated literal of one predicate are apart. Overflow only where one of the lists that are
/// asked overflows.
pub(crate) fn all_apart(alloc: Global, program: &Program, cert: &Cert) -> Result<bool, SearchErr>
    ensures { Gives result (all_fail (pair_lists program.now (certificate_of cert.now))) (pair_lists program.now (certificate_of cert.now)) }
{
    let free = cert.sample.len() as u64;
    let table = table_of(alloc, program, cert)?;
    let sayings = table.sayings(alloc)?;
    are_apart(alloc, free, cert.given.as_slice(), sayings)
}
