//! The clash lines that pairs get.
ghost use Rattle.std.specs.Prelude.{◌≡◌, ◌++◌, ◌∷◌, [], true, IfOk, OnOk, map, reverse};
ghost use Rattle.std.specs.List.{flat_map, list_all};
ghost use Rattle.scasp_checker_rules.specs.PairLists.{pair_list};
ghost use Rattle.scasp_checker_rules.specs.Pairs.{all_pairs};
ghost use Rattle.scasp_checker_rules.specs.Told.{all_told};
ghost use Rattle.scasp_cert.specs.Certificate.{certificate_of};
ghost use Rattle.scasp_fill.specs.Filling.Filled.{clashes_found, is_pair_known};
ghost use Rattle.scasp_fill.specs.Filling.Inside.Clashing.{is_terms, with_clash, with_pair, with_pairs, with_shown, with_turned};
ghost use Rattle.scasp_hint_steps.specs.Pruned.{found_pruned};
ghost use Rattle.scasp_lines.specs.Lines.{free_of, lines};
ghost use Rattle.scasp_checker.specs.Partners.Partners.{group_of, pairs_of};
ghost use Rattle.scasp_lines_walk.specs.Shown.TableView.{told_from, told_of};

use crate::filling::finding::{Finding, find_hint};
use scasp_cert::{Cert, Clash, Clashes};
use scasp_checker::{Partners, differ_by_names, items_in, partners_of};
use scasp_disjoint::pair_list;
use scasp_lines_walk::{Saying, table_of};
use scasp_list::Memory;
use scasp_syntax::{Con, Hint, Program};
use std::alloc::Global;

/// Clash lines; and whether no list overflowed that could hide another.
#[derive(Drop)]
pub(crate) struct Clashing {
    pub clashes: Clashes,
    pub known: bool,
}

/// Puts a clash line at the end.
fn put_clash(first: u64, second: u64, hint: Hint, made: &mut Clashing) -> Result<(), Memory>
    ensures { OnOk result (made.new ≡ with_clash first second hint made.old) }
{
    made.clashes.push(Clash {
        first,
        second,
        hint,
    })?;
    Ok(())
}

/// Whether the hint says that the terms alone show it.
fn is_terms(hint: &Hint) -> bool
    ensures { result ≡ is_terms hint.now }
{
    match hint {
        Hint::Terms => true,
        Hint::Rows(_) | Hint::Same(_, _) => false,
    }
}

/// Puts the clash line of two lines, unless their terms show them apart.
fn put_shown(first: u64, second: u64, hint: Hint, made: &mut Clashing) -> Result<(), Memory>
    ensures { OnOk result (made.new ≡ with_shown first second hint made.old) }
{
    if is_terms(&hint) {
        return Ok(());
    }
    put_clash(first, second, hint, made)
}

/// Puts the clash line from the second literal to the first, where a hint is found; `known` is whether the list the other
/// way round did not overflow.
fn put_turned(
    alloc: Global,
    free: u64,
    given: &[Con],
    first: &Saying,
    second: &Saying,
    known: bool,
    made: &mut Clashing,
) -> Result<(), Memory>
    ensures { OnOk result (made.new ≡ with_turned first.now.at second.now.at known (found_pruned (pair_list free given.now (told_of second.now) (told_of first.now))) made.old) }
{
    let list = pair_list(alloc, free, given, second, first)?;
    match find_hint(alloc, list.as_slice())? {
        Finding::Shown(hint) => put_clash(second.at, first.at, hint, made),
        Finding::Nothing => {
            made.known = made.known && known;
            Ok(())
        }
        Finding::Unknown => {
            made.known = false;
            Ok(())
        }
    }
}

/// Puts the clash line of the pair, where it needs one and one is found.
fn put_pair(
    alloc: Global,
    free: u64,
    given: &[Con],
    first: &Saying,
    second: &Saying,
    made: &mut Clashing,
) -> Result<(), Memory>
    ensures { OnOk result (made.new ≡ with_pair free given.now (told_of first.now, told_of second.now) made.old) }
{
    if differ_by_names(alloc, first, second)? {
        return Ok(());
    }
    let list = pair_list(alloc, free, given, first, second)?;
    match find_hint(alloc, list.as_slice())? {
        Finding::Shown(hint) => put_shown(first.at, second.at, hint, made),
        Finding::Nothing => put_turned(alloc, free, given, first, second, true, made),
        Finding::Unknown => put_turned(alloc, free, given, first, second, false, made),
    }
}

/// Puts the clash lines of the pairs of this literal with these.
fn put_each(
    alloc: Global,
    free: u64,
    given: &[Con],
    first: &Saying,
    seconds: &[&&Saying],
    made: &mut Clashing,
) -> Result<(), Memory>
    ensures { OnOk result (made.new ≡ with_pairs free given.now (pairs_of (told_of first.now, map (λ s. told_from s.now) seconds.now)) made.old) }
{
    for second in seconds {
        put_pair(alloc, free, given, first, second, made)?;
    }
    Ok(())
}

/// Puts the clash lines of the pairs of one literal.
fn put_partners(
    alloc: Global,
    free: u64,
    given: &[Con],
    partners: &Partners,
    made: &mut Clashing,
) -> Result<(), Memory>
    ensures { OnOk result (made.new ≡ with_pairs free given.now (pairs_of (group_of partners.now)) made.old) }
{
    let seconds = items_in(alloc, &partners.behind)?;
    put_each(alloc, free, given, partners.first, seconds.as_slice(), made)
}

/// The clash lines of the pairs of all these.
fn clashes_among(
    alloc: Global,
    free: u64,
    given: &[Con],
    mut left: Vec<Partners>,
) -> Result<Clashing, Memory>
    ensures { IfOk result (λ made. made ≡ with_pairs free given.now (flat_map pairs_of (map group_of (reverse left.entry.items))) (record { clashes = []; known = true })) }
{
    let mut made = Clashing {
        clashes: Clashes::new(alloc),
        known: true,
    };
    while let Some(partners) = left.pop() {
        put_partners(alloc, free, given, &partners, &mut made)?;
    }
    Ok(made)
}

/// The clash lines of all pairs of the certificate, by the first literal and then by the second. Literals are found by
/// their predicate and sign, so only pairs are looked at.
pub(crate) fn clashes_found(
    alloc: Global,
    program: &Program,
    cert: &Cert,
) -> Result<Clashing, Memory>
    ensures clashes { IfOk result (λ made. made.clashes ≡ clashes_found program.now (certificate_of cert.now)) }
    ensures known { IfOk result (λ made. made.known ≡ list_all (is_pair_known (free_of (certificate_of cert.now)) cert.now.given) (all_pairs (all_told (lines program.now (certificate_of cert.now))))) }
{
    let free = cert.sample.len() as u64;
    let table = table_of(alloc, program, cert)?;
    let sayings = table.sayings(alloc)?;
    let partners = partners_of(alloc, sayings)?;
    clashes_among(alloc, free, cert.given.as_slice(), partners)
}
