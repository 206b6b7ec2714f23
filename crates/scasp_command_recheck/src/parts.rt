//! The blocks of an answer file, taken out of it.
ghost use Rattle.std.specs.Prelude.{◌≡◌, ◌++◌, map, IfOk, OnOk};
ghost use Rattle.scasp_answers.specs.Files.View.{entry_of};
ghost use Rattle.scasp_recheck.specs.Views.{certs_of};
ghost use Rattle.scasp_command_recheck.specs.Blocks.{block_certs, block_numbers, entry_certs, entry_numbers};

use scasp_answers::{Entries, Entry};
use scasp_list::{Memory, Sequence};
use scasp_recheck::Certs;
use std::alloc::Global;

/// The numbers of answers, and their certificates.
#[derive(Drop)]
pub(crate) struct Parts {
    pub numbers: Sequence<u64>,
    pub certs: Certs,
}

impl Parts {
    /// Puts in the entry, where it is a block.
    fn put(&mut self, entry: Entry) -> Result<(), Memory>
        ensures numbers { OnOk result (self.new.numbers ≡ self.old.numbers ++ entry_numbers (entry_of entry)) }
        ensures certs { OnOk result (certs_of self.new.certs ≡ certs_of self.old.certs ++ entry_certs (entry_of entry)) }
    {
        match entry {
            Entry::Block(block) => {
                self.numbers.push(block.answer)?;
                self.certs.push(block.cert)
            }
            Entry::Ended(_, _) | Entry::Rejected(_, _, _, _) => Ok(()),
        }
    }

    /// The blocks among the entries.
    pub fn of(alloc: Global, entries: Entries) -> Result<Parts, Memory>
        ensures numbers { IfOk result (λ parts. parts.numbers ≡ block_numbers (map entry_of entries)) }
        ensures certs { IfOk result (λ parts. certs_of parts.certs ≡ block_certs (map entry_of entries)) }
    {
        let mut parts = Parts {
            numbers: Sequence::new(alloc),
            certs: Certs::new(alloc),
        };
        for entry in entries.into_vec() {
            parts.put(entry)?;
        }
        Ok(parts)
    }
}
