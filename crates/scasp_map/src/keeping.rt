//! Whether a program keeps levels and signs that are found by predicate.
ghost use Rattle.std.specs.Prelude.{◌≡◌, [], Err, IfOk, MatchOption};
ghost use Rattle.std.specs.List.{list_all};
ghost use Rattle.scasp_graph.specs.Judged.{judged};
ghost use Rattle.scasp_graph.specs.Map.{keeps, keeps_below, keeps_entry, keeps_item, map_faults};

use crate::table::MapTable;
use scasp_graph::{MapFault, has_number};
use scasp_name::Memory;
use scasp_syntax::{Atom, Clause, Item, Items, Pred, PredMap, PredMaps, Program, RuleList};
use std::alloc::Global;

/// Whether a literal may stand below a head with these entries.
fn keeps_entry(head: PredMap, positive: bool, body: PredMap) -> bool
    ensures { result ≡ keeps_entry head positive body }
{
    body.level < head.level || (body.level == head.level && positive == (head.plus == body.plus))
}

/// Whether the item keeps the map below a head with this predicate.
fn keeps_item(map: &MapTable, head: Pred, item: &Item) -> bool
    ensures { result ≡ keeps_item map.now head item.now }
{
    match item {
        Item::Call(literal) => keeps_entry(
            map.entry(head),
            literal.positive,
            map.entry(literal.atom.pred()),
        ),
        Item::Equal(_, _) | Item::Differ(_, _) | Item::Linear(_) => true,
    }
}

/// Whether each item keeps the map below a head with this predicate.
fn keep_items(map: &MapTable, head: Pred, body: &Items) -> bool
    ensures { result ≡ list_all (keeps_item map.now head) body.now }
{
    body.as_slice()
        .iter()
        .all(|item| keeps_item(map, head, item))
}

/// Whether the body keeps the map below the head; that of a denial does not.
fn keeps_below(map: &MapTable, head: &Option<Atom>, body: &Items) -> bool
    ensures { result ≡ keeps_below map.now head.now body.now }
{
    match head {
        None => false,
        Some(atom) => keep_items(map, atom.pred(), body),
    }
}

/// Whether the clause of this number is covered, or is a rule that keeps the map.
fn keeps(covered: &RuleList, map: &MapTable, number: u64, clause: &Clause) -> bool
    ensures { result ≡ keeps covered.now map.now number clause.now }
{
    has_number(covered, number) || keeps_below(map, &clause.head, &clause.body)
}

/// The first clause that breaks the map.
fn fault_in(program: &Program, covered: &RuleList, map: &MapTable) -> Option<MapFault>
    ensures { MatchOption result (map_faults program.now covered.now map.now ≡ []) (λ fault. judged (map_faults program.now covered.now map.now) ≡ Err fault) }
{
    for (place, clause) in program.clauses.as_slice().iter().enumerate() {
        let rule = place as u64 + 1;
        if !keeps(covered, map, rule, clause) {
            return Some(MapFault { rule });
        }
    }
    None
}

/// The first clause that breaks the map, as `map_holds` of `scasp_graph` tells it. It takes memory for a table of the
/// entries, and an entry is found without a walk over the map.
///
/// # Errors
///
/// Want of memory.
pub fn first_fault(
    alloc: Global,
    program: &Program,
    covered: &RuleList,
    map: &PredMaps,
) -> Result<Option<MapFault>, Memory>
    ensures { IfOk result (λ found. MatchOption found (map_faults program.now covered.now map.now ≡ []) (λ fault. judged (map_faults program.now covered.now map.now) ≡ Err fault)) }
{
    let table = MapTable::of(alloc, map)?;
    Ok(fault_in(program, covered, &table))
}
