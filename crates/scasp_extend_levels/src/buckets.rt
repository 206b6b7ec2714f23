//! Ground rules by the levels of their heads.
ghost use Rattle.std.specs.Prelude.{◌≡◌, ℕ, List, ◌∷◌, ◌++◌, [], false, nat_eq, IfOk, OnOk, Some, if◌then◌else◌};
ghost use Rattle.std.specs.BTreeMap.{get};
ghost use Rattle.std.specs.Ordering.{nat_cmp};
ghost use Rattle.scasp_extend_levels.specs.Numbered.{StandAll};
ghost use Rattle.scasp_extend_levels.specs.Sorted.{IsSorted, StandIn};
ghost use Rattle.scasp_model.specs.declared.program.GroundClause.{GroundClause as ThisClause};
ghost use Rattle.scasp_syntax.specs.declared.predicate_map.PredMap.{PredMap as ThisMap};

use crate::numbered::Level;
use scasp_map::{Entries, entries_of, level_in};
use scasp_model::GroundClause;
use scasp_name::Memory;
use scasp_syntax::{Atom, Lits, PredMaps};
use std::alloc::Global;
use std::collections::BTreeMap;
use std::hash::RandomState;

/// Rules over numbers by the levels of their heads.
pub(crate) type Buckets = BTreeMap<u64, Level>;

/// Ground rules by the levels of their heads, as the map of a certificate has them. They are kept over numbers: each level has a
/// table of its atoms, hashed by the same keys.
#[derive(Drop)]
pub struct Levels {
    pub(crate) entries: Entries,
    pub(crate) levels: Buckets,
    pub(crate) random: RandomState,
}

/// Takes the rules of the level out. Where there are none, the keys hash the atoms to come.
fn take_at(alloc: Global, levels: &mut Buckets, level: u64, random: RandomState) -> Level
    ensures taken { (cs : List ThisClause) → StandIn (get nat_cmp levels.old level) cs → StandAll result.table result.rules cs }
    ensures others { (k : ℕ) → nat_eq level k ≡ false → get nat_cmp levels.new k ≡ get nat_cmp levels.old k }
{
    match levels.remove(&level) {
        Some(rules) => rules,
        None => Level::new(alloc, random),
    }
}

/// Puts the rule behind those of the level.
fn put_at(
    alloc: Global,
    levels: &mut Buckets,
    level: u64,
    head: &Atom,
    body: &Lits,
    random: RandomState,
) -> Result<(), Memory>
    ensures { OnOk result ((k : ℕ) (cs : List ThisClause) → StandIn (get nat_cmp levels.old k) cs → StandIn (get nat_cmp levels.new k) (if nat_eq level k then cs ++ record { head = Some head.now; body = body.now } ∷ [] else cs)) }
{
    let mut rules = take_at(alloc, levels, level, random);
    rules.push(alloc, head, body)?;
    levels.insert(level, rules)?;
    Ok(())
}

impl Levels {
    /// No rules; the atoms of those to come are hashed by the keys.
    pub fn new(alloc: Global, map: &PredMaps, random: RandomState) -> Result<Levels, Memory>
        ensures { IfOk result (λ made. IsSorted map.now made []) }
    {
        let entries = entries_of(alloc, map)?;
        Ok(Levels {
            entries,
            levels: BTreeMap::new(alloc),
            random,
        })
    }

    /// Puts the clause behind the others. A denial is no rule, and is not kept.
    pub fn push(&mut self, alloc: Global, clause: &GroundClause) -> Result<(), Memory>
        ensures { OnOk result ((map : List ThisMap) (g : List ThisClause) → IsSorted map self.old g → IsSorted map self.new (g ++ clause.now ∷ [])) }
    {
        match &clause.head {
            Some(head) => {
                let level = level_in(&self.entries, head);
                let random = self.random;
                put_at(alloc, &mut self.levels, level, head, &clause.body, random)?;
                Ok(())
            }
            None => Ok(()),
        }
    }
}
