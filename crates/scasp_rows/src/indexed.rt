//! A state whose rows are found by their integers.
ghost use Rattle.std.specs.Prelude.{◌≡◌, ◌+◌, ◌++◌, ◌||◌, [], ◌∷◌, IfOk, OnOk, length, not};
ghost use Rattle.std.specs.List.{list_any};
ghost use Rattle.std.specs.HashSet.{contains_by as has_key};
ghost use Rattle.scasp_num.specs.Linear.{Linear as ThisLinear};
ghost use Rattle.scasp_num.specs.SameRow.{same_row};
ghost use Rattle.scasp_rows.specs.Elimination.{Ends, looked};

use crate::rows::{is_constant, is_false, stands};
use crate::state::{Halt, Standing, State, unsat, with_row, with_step};
use scasp_list::Memory;
use scasp_num::{Row, Step};
use std::alloc::Global;
use std::collections::HashSet;
use std::hash::{Hash, Hasher};
use std::marker::Model;

/// A row, as what it is found by.
#[derive(Debug, Drop)]
pub struct RowKey {
    pub row: Row,
}

impl PartialEq for RowKey {
    ghost use Rattle.scasp_rows.specs.Inside.Keys.{rows_equivalent};
    ghost use Rattle.std.specs.Cmp.{partial_equiv_from_equiv};

    ghost eq = { λ a b. same_row b.row a.row };

    ghost laws = { partial_equiv_from_equiv (rows_equivalent (λ a. a.row)) };

    fn eq(&self, other: &RowKey) -> bool {
        other.row.is_same(&self.row)
    }
}

impl Eq for RowKey {
    ghost use Rattle.scasp_rows.specs.Inside.Keys.{rows_equivalent};

    ghost laws = { rows_equivalent (λ a. a.row) };
}

impl Hash for RowKey {
    ghost use Rattle.scasp_rows.specs.Inside.Keys.{row_writes, writes-same};

    ghost hash_input = { λ a. row_writes a.row };

    ghost respects_eq = { λ a b. writes-same a.row b.row };

    fn hash<H: Hasher>(&self, state: &mut H) {
        self.row.constant().hash(state);
        for k in self.row.coeffs().as_slice() {
            k.x.hash(state);
            k.c.hash(state);
        }
    }
}

/// The key of a row.
fn key_of(row: &Row) -> Result<RowKey, Memory>
    ensures { IfOk result (λ key. key.row ≡ row.now) }
{
    Ok(RowKey { row: row.clone()? })
}

/// Puts a row among the keys, and says whether it is new.
fn insert(keys: &mut HashSet<RowKey>, row: &Row) -> Result<bool, Memory>
    ensures added { IfOk result (λ added. added ≡ not (has_key (λ k. same_row k.row row.now) keys.old)) }
    ensures updates { OnOk result ((q : ThisLinear) → has_key (λ k. same_row k.row q) keys.new ≡ (same_row row.now q || has_key (λ k. same_row k.row q) keys.old)) }
{
    let key = key_of(row)?;
    Ok(keys.insert(key)?)
}

/// So few rows are looked at by going through those that stand.
const FEW: usize = 32;

/// The keys of the rows.
fn keys_of(alloc: Global, rows: &[Standing]) -> Result<HashSet<RowKey>, Memory>
    ensures { IfOk result (λ keys. (q : ThisLinear) → has_key (λ k. same_row k.row q) keys ≡ list_any (λ o. same_row o.row q) rows.now) }
{
    let mut keys = HashSet::new(alloc);
    for r in rows {
        insert(&mut keys, &r.row)?;
    }
    Ok(keys)
}

/// A state, seen as such, with the keys of its rows where many rows are looked at.
#[derive(Drop)]
pub(crate) struct Indexed {
    state: State,
    keys: Option<HashSet<RowKey>>,
}

impl Model for Indexed {
    ghost use Rattle.scasp_rows.specs.declared.state.State.{State as ThisState};
    ghost use Rattle.std.specs.Prelude.{◌≡◌, IfSome};
    ghost use Rattle.scasp_num.specs.Linear.{Linear};
    ghost use Rattle.scasp_num.specs.SameRow.{same_row};
    ghost use Rattle.std.specs.HashSet.{contains_by};
    ghost use Rattle.std.specs.List.{list_any};

    ghost Value = { ThisState };

    ghost view = { λ i. i.state };

    ghost invariant = { λ i. IfSome i.keys (λ keys. (q : Linear) → contains_by (λ k. same_row k.row q) keys ≡ list_any (λ o. same_row o.row q) i.state.standing) };
}

impl Indexed {
    /// The state, in which so many rows are to be looked at.
    pub(crate) fn of(alloc: Global, state: State, looks: usize) -> Result<Indexed, Memory>
        ensures { IfOk result (λ s. s ≡ state) }
    {
        if looks <= FEW {
            return Ok(Indexed { state, keys: None });
        }
        let keys = keys_of(alloc, state.standing.as_slice())?;
        Ok(Indexed {
            state,
            keys: Some(keys),
        })
    }

    /// The number of rows that stand.
    pub(crate) fn count(&self) -> usize
        ensures { result ≡ length self.now.standing }
    {
        self.state.standing.len()
    }

    /// The number of the last row.
    pub(crate) fn last(&self) -> u64
        ensures { result ≡ self.now.last }
    {
        self.state.last
    }

    /// The state with one more step.
    pub(crate) fn with_step(self, step: Step) -> Result<Indexed, Memory>
        ensures { IfOk result (λ s. s ≡ record { standing = self.standing; steps = self.steps ++ step ∷ []; last = self.last + 1 }) }
    {
        let Indexed { state, keys } = self;
        let state = with_step(state, step)?;
        Ok(Indexed { state, keys })
    }

    /// Looks at a new row: a false constant row ends the elimination; a true one is dropped, and so is one
    /// that stands already.
    pub(crate) fn looked(self, r: Standing) -> Result<Indexed, Halt>
        ensures { Ends result (looked r [] self) }
    {
        let Indexed { state, keys } = self;
        match keys {
            Some(keys) => looked_by_keys(state, keys, r),
            None => {
                let state = looked(state, r)?;
                Ok(Indexed { state, keys: None })
            }
        }
    }

    /// The state without the keys.
    pub(crate) fn into_state(self) -> State
        ensures { result ≡ self }
    {
        let Indexed { state, .. } = self;
        state
    }
}

/// Looks at a new row by going through those that stand.
#[tactic(auto, using(crate::proofs::Lists::appended))]
fn looked(state: State, r: Standing) -> Result<State, Halt>
    ensures { Ends result (looked r [] state) }
{
    if is_false(&r.row) {
        return Err(unsat(state));
    }
    if is_constant(&r.row) || stands(state.standing.as_slice(), &r.row) {
        return Ok(state);
    }
    Ok(with_row(state, r)?)
}

/// Looks at a new row by the keys of those that stand.
fn looked_by_keys(state: State, keys: HashSet<RowKey>, r: Standing) -> Result<Indexed, Halt>
    requires { (q : ThisLinear) → has_key (λ k. same_row k.row q) keys ≡ list_any (λ o. same_row o.row q) state.standing }
    ensures { Ends result (looked r [] state) }
{
    if is_false(&r.row) {
        return Err(unsat(state));
    }
    if is_constant(&r.row) {
        return Ok(Indexed {
            state,
            keys: Some(keys),
        });
    }
    let mut keys = keys;
    if insert(&mut keys, &r.row)? {
        let state = with_row(state, r)?;
        return Ok(Indexed {
            state,
            keys: Some(keys),
        });
    }
    Ok(Indexed {
        state,
        keys: Some(keys),
    })
}
