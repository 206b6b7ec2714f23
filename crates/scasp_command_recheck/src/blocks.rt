//! The blocks of an answer file under a program that changes.
ghost use Rattle.std.specs.Prelude.{◌≡◌, map, IfOk};

use crate::parts::Parts;
use crate::text::{are_accepted, put_program, put_visited, worth_in};
use scasp_answers::Entries;
use scasp_command_check::block_line;
use scasp_list::{Memory, Sequence};
use scasp_recheck::Recheck;
use scasp_syntax::Program;
use std::alloc::Global;

/// The blocks of an answer file, each with what it is worth under a program.
#[derive(Drop)]
pub struct Blocks {
    /// The numbers of the answers.
    numbers: Sequence<u64>,
    recheck: Recheck,
}

impl Blocks {
    ghost use Rattle.std.specs.Prelude.{◌<◌, ◌++◌, List, Some, length, slice_get, OnOk};
    ghost use Rattle.std.specs.List.{concat, list_all};
    ghost use Rattle.scasp_answers.specs.Blocks.States.{Entry as ThisEntry};
    ghost use Rattle.scasp_answers.specs.Files.View.{entry_of};
    ghost use Rattle.scasp_syntax.specs.declared.program.Program.{Program as ThisProgram};
    ghost use Rattle.scasp_touched.specs.Touched.{touched_count};
    ghost use Rattle.scasp_command_check.specs.Texts.{passes};
    ghost use Rattle.scasp_command_recheck.specs.Blocks.{block_certs};
    ghost use Rattle.scasp_command_recheck.specs.Texts.{program_text};
    ghost use Rattle.scasp_command_recheck.specs.Lines.{line_at, lines_by};
    ghost use Rattle.scasp_command_recheck.specs.Views.{AreBlocks};
    ghost use Rattle.scasp_recheck.specs.Meaning.{certs_in, program_of};

    /// The blocks among the entries, checked under the program.
    ///
    /// # Errors
    ///
    /// Want of memory.
    pub fn open(alloc: Global, program: &Program, entries: Entries) -> Result<Blocks, Memory>
        ensures { IfOk result (λ blocks. AreBlocks blocks program.now (map entry_of entries)) }
    {
        let Parts { numbers, certs } = Parts::of(alloc, entries)?;
        Ok(Blocks {
            numbers,
            recheck: Recheck::open(alloc, program, certs)?,
        })
    }

    /// The program is now this one. Tells how many blocks the step touches. After an error nothing has changed.
    ///
    /// # Errors
    ///
    /// Want of memory.
    pub fn update(&mut self, program: &Program) -> Result<u64, Memory>
        ensures blocks { (p : ThisProgram) (entries : List ThisEntry) → AreBlocks self.old p entries → OnOk result (AreBlocks self.new program.now entries) }
        ensures visited { (p : ThisProgram) (entries : List ThisEntry) → AreBlocks self.old p entries → IfOk result (λ visited. visited ≡ touched_count p program.now (block_certs entries)) }
    {
        let visited = self.recheck.update(program)?;
        Ok(visited)
    }

    /// The text of the blocks under the program, which is the one of this number.
    ///
    /// # Errors
    ///
    /// Want of memory.
    pub fn text(&self, alloc: Global, number: u64, visited: u64) -> Result<Vec<u8>, Memory>
        ensures { (p : ThisProgram) (entries : List ThisEntry) → AreBlocks self.now p entries → IfOk result (λ text. text.items ≡ program_text number p entries visited) }
    {
        let mut text = Vec::new(alloc);
        put_program(&mut text, number)?;
        self.put_lines(alloc, &mut text)?;
        put_visited(&mut text, visited)?;
        Ok(text)
    }

    /// Puts the lines of the blocks at the end.
    fn put_lines(&self, alloc: Global, text: &mut Vec<u8>) -> Result<(), Memory>
        ensures { OnOk result (text.new.items ≡ text.old.items ++ concat (lines_by (program_of self.now.recheck) self.now.numbers (certs_in self.now.recheck))) }
    {
        for place in 0..self.recheck.len() {
            self.put_line(alloc, place, text)?;
        }
        Ok(())
    }

    /// Puts the line of a block at the end.
    fn put_line(&self, alloc: Global, place: u64, text: &mut Vec<u8>) -> Result<(), Memory>
        requires { place < length (certs_in self.now.recheck) }
        ensures { OnOk result (text.new.items ≡ text.old.items ++ line_at (program_of self.now.recheck) (slice_get self.now.numbers place) (slice_get (certs_in self.now.recheck) place)) }
    {
        match self.numbers.get(place as usize) {
            Some(number) => self.put_block(alloc, place, *number, text),
            None => Ok(()),
        }
    }

    /// Puts the line of a block at the end, whose answer has this number.
    fn put_block(
        &self,
        alloc: Global,
        place: u64,
        number: u64,
        text: &mut Vec<u8>,
    ) -> Result<(), Memory>
        requires { place < length (certs_in self.now.recheck) }
        ensures { OnOk result (text.new.items ≡ text.old.items ++ line_at (program_of self.now.recheck) (Some number) (slice_get (certs_in self.now.recheck) place)) }
    {
        let checked = self.recheck.result(place);
        let certificate = self.recheck.cert(place);
        let worth = worth_in(*checked);
        let line = block_line(alloc, number, certificate, worth)?;
        text.extend_from_slice(line.as_slice())?;
        Ok(())
    }

    /// Whether all blocks are accepted under the program.
    pub fn are_accepted(&self) -> bool
        ensures { (p : ThisProgram) (entries : List ThisEntry) → AreBlocks self.now p entries → result ≡ list_all (passes p) entries }
    {
        are_accepted(self.recheck.results())
    }

    /// The number of blocks.
    pub fn len(&self) -> u64
        ensures { (p : ThisProgram) (entries : List ThisEntry) → AreBlocks self.now p entries → result ≡ length (block_certs entries) }
    {
        self.recheck.len()
    }
}
