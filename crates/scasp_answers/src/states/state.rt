//! What has been read of a file, and which line may come next.
ghost use Rattle.std.specs.Prelude.{◌≡◌, ◌∷◌, true, Some, Ok};
ghost use Rattle.scasp_cert.specs.Certificate.{certificate_of};
ghost use Rattle.scasp_answers_terms.specs.Tokens.Bounds.{line_fits};
ghost use Rattle.scasp_answers_lines.specs.Forms.View.{line_of};
ghost use Rattle.scasp_answers.specs.Blocks.Blocks.{at};
ghost use Rattle.scasp_answers.specs.Blocks.States as states;
ghost use Rattle.scasp_answers.specs.Opens.View.{opens_of};
ghost use Rattle.scasp_answers.specs.States.View.{entry_of, state_of, Follows};

use crate::opens::{Opens, Placing, close_to};
use crate::parts::Open;
use scasp_answers_lines::{End, Line};
use scasp_cert::{Cert, Checks, Clashes, Nodes};
use scasp_list::{Memory, Sequence};
use scasp_syntax::{Cons, PredMaps, Terms};
use std::alloc::Global;
use std::mem;

/// A block: the answer's number, and its certificate.
#[derive(Drop)]
pub struct Block {
    pub answer: u64,
    pub cert: Cert,
}

/// What stands in a file behind its header.
#[derive(Drop)]
pub enum Entry {
    Block(Block),
    /// How the answers to this query end.
    Ended(End, u64),
    /// Query, answer, the line at fault, the reason in words.
    Rejected(u64, u64, u64, &'static str),
}

/// What stands in a file behind its header, in order.
pub type Entries = Sequence<Entry>;

/// The last line at the left edge: none, one between entries, or the kind within a block.
#[derive(Clone, Copy, Debug, PartialEq, Eq)]
pub enum Phase {
    AtStart,
    Between,
    InGiven,
    InSample,
    InTree,
    InClashes,
    InMap,
}

/// What has been read. The block is the one that is read.
#[derive(Drop)]
pub struct State {
    pub phase: Phase,
    pub block: Block,
    pub opens: Opens,
    pub entries: Entries,
}

/// A block whose certificate is that of its first line.
fn started(alloc: Global, query: u64, answer: u64, terms: Terms) -> Block
    ensures number { result.answer ≡ answer }
    ensures cert { certificate_of result.cert ≡ states.started query terms }
{
    Block {
        answer,
        cert: Cert {
            query,
            terms,
            given: Cons::new(alloc),
            sample: Terms::new(alloc),
            trees: Nodes::new(alloc),
            checks: Checks::new(alloc),
            clashes: Clashes::new(alloc),
            map: PredMaps::new(alloc),
        },
    }
}

impl State {
    /// Nothing has been read.
    pub fn new(alloc: Global) -> State
        ensures { state_of result ≡ states.first_state }
    {
        State {
            phase: Phase::AtStart,
            block: started(alloc, 0, 0, Terms::new(alloc)),
            opens: Opens::new(alloc),
            entries: Entries::new(alloc),
        }
    }

    /// Opens the line.
    pub(crate) fn open(&mut self, alloc: Global, line: Line) -> Result<Placing, Memory>
        requires { line_fits (line_of line) ≡ true }
        ensures { Follows (Some (states.with_opens (state_of self.old) (states.opened (line_of line) ∷ (opens_of self.old.opens)) (certificate_of self.old.block.cert))) result self.new }
    {
        self.opens.push(Open::new(alloc, line))?;
        Ok(Placing::Stands)
    }

    /// Puts an entry behind the others.
    pub(crate) fn end_entry(&mut self, entry: Entry) -> Result<Placing, Memory>
        ensures { Follows (Some (states.with_entry (state_of self.old) (entry_of entry))) result self.new }
    {
        self.phase = Phase::Between;
        self.entries.push(entry)?;
        Ok(Placing::Stands)
    }

    /// Begins a block.
    pub(crate) fn begin_block(
        &mut self,
        alloc: Global,
        query: u64,
        answer: u64,
        terms: Terms,
    ) -> Placing
        ensures { Follows (Some (states.begins_block (state_of self.old) answer (states.started query terms))) (Ok result) self.new }
    {
        self.phase = Phase::InGiven;
        self.block = started(alloc, query, answer, terms);
        Placing::Stands
    }

    /// Ends the block.
    pub(crate) fn end_block(&mut self, alloc: Global) -> Result<Placing, Memory>
        ensures { Follows (Some (states.ends_block (state_of self.old))) result self.new }
    {
        let block = mem::replace(&mut self.block, started(alloc, 0, 0, Terms::new(alloc)));
        self.end_entry(Entry::Block(block))
    }

    /// Reads a line that stands right below the innermost open one, or at the left edge where none is open.
    #[tactic(auto, using(crate::proofs::StatesLemmas::StateLemmas::stands_below, crate::proofs::StatesLemmas::StateLemmas::stands_nowhere))]
    fn stand_below(&mut self, alloc: Global, line: Line) -> Result<Placing, Memory>
        requires { line_fits (line_of line) ≡ true }
        ensures { Follows (states.at_level (state_of self.old) (opens_of self.old.opens) (line_of line)) result self.new }
    {
        match self.opens.last() {
            Some(top) => {
                if top.takes(&line) {
                    self.open(alloc, line)
                } else {
                    drop(line);
                    Ok(Placing::OutOfOrder)
                }
            }
            None => self.stand_at_edge(alloc, line),
        }
    }

    /// Reads the line at its depth. Where it may not stand, or after an error, lines may have been closed.
    #[tactic(auto, using(crate::proofs::StatesLemmas::StateLemmas::next_none))]
    pub fn stand(&mut self, alloc: Global, depth: usize, line: Line) -> Result<Placing, Memory>
        requires { line_fits (line_of line) ≡ true }
        ensures { Follows (states.next_state (state_of self.old) (at depth (line_of line))) result self.new }
    {
        match close_to(alloc, depth, &mut self.opens, &mut self.block.cert) {
            Ok(Placing::Stands) => self.stand_below(alloc, line),
            Ok(Placing::OutOfOrder) => {
                drop(line);
                Ok(Placing::OutOfOrder)
            }
            Err(error) => {
                drop(line);
                Err(error)
            }
        }
    }
}
