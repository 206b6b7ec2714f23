//! Atoms by number.
ghost use Rattle.std.specs.Prelude.{◌≡◌, false, [], length, slice_get, IsTrue, IfOk, IfSome, IfNone, OnOk, OnErr, Some};
ghost use Rattle.scasp_model.specs.Atoms.{among, are_distinct};
ghost use Rattle.scasp_tables.specs.Tables.{with_atom};

use crate::key_table::KeyTable;
use crate::keys::atom_key;
use scasp_list::Memory;
use scasp_syntax::{Atom, DeepCopy, Sequence};
use std::alloc::Global;
use std::hash::RandomState;
use std::marker::Model;

/// Distinct atoms, each with its number: its place, counted from 0.
#[derive(Drop)]
pub struct AtomTable {
    atoms: Sequence<Atom>,
    keys: KeyTable,
}

impl Model for AtomTable {
    ghost use Rattle.std.specs.Prelude.{◌≡◌, List, map, IsTrue};
    ghost use Rattle.scasp_model.specs.Atoms.{are_distinct};
    ghost use Rattle.std.specs.Coded.{codes};
    ghost use Rattle.scasp_syntax.specs.TmCode.{coded_tms};
    ghost use Rattle.scasp_tables.specs.Inside.Keys.{atom_key};
    ghost use Rattle.scasp_syntax.specs.declared.atom.Atom.{Atom};

    ghost Value = { List Atom };

    ghost coded = { Prim.hlevel (codes, coded_tms) };

    ghost view = { λ t. t.atoms };

    ghost invariant = { λ t. (t.keys ≡ map atom_key t.atoms) × IsTrue (are_distinct t.atoms) };
}

impl AtomTable {
    /// No atoms; those to come are hashed by the keys. It takes no memory.
    pub fn new(alloc: Global, random: RandomState) -> AtomTable
        ensures { result ≡ [] }
    {
        AtomTable {
            atoms: Sequence::new(alloc),
            keys: KeyTable::new(alloc, random),
        }
    }

    /// The number of atoms.
    pub fn len(&self) -> usize
        ensures count { result ≡ length self.now }
        ensures distinct { IsTrue (are_distinct self.now) }
    {
        self.atoms.len()
    }

    /// The atoms in order.
    pub fn as_slice(&self) -> &[Atom]
        ensures value { result.now ≡ self.now }
        ensures distinct { IsTrue (are_distinct self.now) }
    {
        self.atoms.as_slice()
    }

    /// The number of the atom, where it is there. It takes memory for its key.
    pub fn find(&self, alloc: Global, atom: &Atom) -> Result<Option<usize>, Memory>
        ensures found { IfOk result (λ place. IfSome place (λ n. slice_get self.now n ≡ Some atom.now)) }
        ensures absent { IfOk result (λ place. IfNone place (among self.now atom.now ≡ false)) }
    {
        let key = atom_key(alloc, atom)?;
        match self.keys.find(key.as_slice()) {
            Some(place) => Ok(Some(place)),
            None => Ok(None),
        }
    }

    /// Whether the atom is there. It takes memory for its key.
    pub fn contains(&self, alloc: Global, atom: &Atom) -> Result<bool, Memory>
        ensures { IfOk result (λ answer. answer ≡ among self.now atom.now) }
    {
        let key = atom_key(alloc, atom)?;
        Ok(self.keys.contains(key.as_slice()))
    }

    /// The number of the atom, of which a copy goes last where it is new. Old atoms keep their numbers; after an error the table
    /// is as it was.
    pub fn put(&mut self, alloc: Global, atom: &Atom) -> Result<usize, Memory>
        ensures atoms { OnOk result (self.new ≡ with_atom self.old atom.now) }
        ensures number { IfOk result (λ n. slice_get self.new n ≡ Some atom.now) }
        ensures err { OnErr result (self.new ≡ self.old) }
    {
        let key = atom_key(alloc, atom)?;
        if let Some(place) = self.keys.find(key.as_slice()) {
            return Ok(place);
        }
        let place = self.atoms.len();
        let copied = atom.copy(alloc)?;
        self.keys.push(key)?;
        match self.atoms.push(copied) {
            Ok(()) => Ok(place),
            Err(error) => {
                self.keys.pop();
                Err(error)
            }
        }
    }

    /// The list of the atoms, which takes no memory.
    pub fn into_atoms(self) -> Sequence<Atom>
        ensures value { result ≡ self }
        ensures distinct { IsTrue (are_distinct self) }
    {
        let AtomTable { atoms, keys: _keys } = self;
        atoms
    }
}
