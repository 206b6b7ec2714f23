//! Whether a program keeps given levels and signs.
ghost use Rattle.std.specs.Prelude.{◌≡◌, nat_eq, OnOk, IfErr};
ghost use Rattle.std.specs.List.{list_any, list_all};
ghost use Rattle.scasp_syntax.specs.Programs.{pred_of};
ghost use Rattle.scasp_graph.specs.Map.{entry_of, keeps_entry, keeps_item, keeps_below, keeps, map_faults, MapHolds};
ghost use Rattle.scasp_graph.specs.Judged.{judged};

use scasp_syntax::{Atom, Clause, Item, Items, Pred, PredMap, PredMaps, Program, RuleList};

/// The first clause, counted from 1, that breaks a map.
#[derive(Clone, Copy, Debug, PartialEq, Eq)]
pub struct MapFault {
    pub rule: u64,
}

/// The first entry of the predicate, or level 0 and `+`.
fn entry_of(map: &PredMaps, pred: Pred) -> PredMap
    ensures { result ≡ entry_of map.now pred }
{
    for entry in map.as_slice() {
        if pred == entry.pred {
            return *entry;
        }
    }
    PredMap {
        pred,
        level: 0,
        plus: true,
    }
}

/// Whether a literal may stand below a head with these entries.
fn keeps_entry(head: PredMap, positive: bool, body: PredMap) -> bool
    ensures { result ≡ keeps_entry head positive body }
{
    body.level < head.level || (body.level == head.level && positive == (head.plus == body.plus))
}

/// Whether the item keeps the map below a head with this predicate.
fn keeps_item(map: &PredMaps, head: Pred, item: &Item) -> bool
    ensures { result ≡ keeps_item map.now head item.now }
{
    match item {
        Item::Call(literal) => keeps_entry(
            entry_of(map, head),
            literal.positive,
            entry_of(map, literal.atom.pred()),
        ),
        Item::Equal(_, _) | Item::Differ(_, _) | Item::Linear(_) => true,
    }
}

/// Whether each item keeps the map below a head with this predicate.
fn keep_items(map: &PredMaps, head: Pred, body: &Items) -> bool
    ensures { result ≡ list_all (keeps_item map.now head) body.now }
{
    body.as_slice()
        .iter()
        .all(|item| keeps_item(map, head, item))
}

/// Whether the body keeps the map below the head; that of a denial does not.
fn keeps_below(map: &PredMaps, head: &Option<Atom>, body: &Items) -> bool
    ensures { result ≡ keeps_below map.now head.now body.now }
{
    match head {
        None => false,
        Some(atom) => keep_items(map, atom.pred(), body),
    }
}

/// Whether the number is in the list.
pub fn has_number(numbers: &RuleList, number: u64) -> bool
    ensures { result ≡ list_any (nat_eq number) numbers.now }
{
    numbers.as_slice().iter().any(|other| number == *other)
}

/// Whether the clause of this number is covered, or is a rule that keeps the map.
fn keeps(covered: &RuleList, map: &PredMaps, number: u64, clause: &Clause) -> bool
    ensures { result ≡ keeps covered.now map.now number clause.now }
{
    has_number(covered, number) || keeps_below(map, &clause.head, &clause.body)
}

/// Whether each denial is covered and each rule that is not covered keeps the map: no predicate of its body
/// has a higher level than that of its head, and one of the same level has the same sign where its literal is
/// positive, and the other sign where it is negated. A predicate that the map lacks has level 0 and `+`.
/// It takes no memory.
///
/// # Errors
///
/// The first clause that breaks the map.
pub fn map_holds(program: &Program, covered: &RuleList, map: &PredMaps) -> Result<(), MapFault>
    ensures judged { result ≡ judged (map_faults program.now covered.now map.now) }
    ensures holds { OnOk result (MapHolds program.now covered.now map.now) }
    ensures fails { IfErr result (λ fault. ¬ MapHolds program.now covered.now map.now) }
{
    for (place, clause) in program.clauses.as_slice().iter().enumerate() {
        let rule = place as u64 + 1;
        if !keeps(covered, map, rule, clause) {
            return Err(MapFault { rule });
        }
    }
    Ok(())
}
