//! Lines at the left edge.
ghost use Rattle.std.specs.Prelude.{◌≡◌, [], true, Ok};
ghost use Rattle.scasp_answers_terms.specs.Tokens.Bounds.{line_fits};
ghost use Rattle.scasp_answers_terms.specs.Tokens.Lines as lines;
ghost use Rattle.scasp_answers_lines.specs.Forms.View.{line_of, end_of};
ghost use Rattle.scasp_answers.specs.Blocks.States.{at_edge};
ghost use Rattle.scasp_answers.specs.Opens.View.{opens_of};
ghost use Rattle.scasp_answers.specs.States.View.{phase_of, state_of, Follows};

use crate::opens::Placing;
use crate::states::state::{Entry, Phase, State};
use scasp_answers_lines::{End, Line};
use scasp_cert::Clash;
use scasp_list::Memory;
use scasp_syntax::{Con, PredMap, Terms};
use std::alloc::Global;

impl State {
    /// Reads a line at the left edge, where none is open.
    #[tactic(auto, using(crate::proofs::StatesLemmas::EdgeLemmas::out_of_order))]
    pub(crate) fn stand_at_edge(&mut self, alloc: Global, line: Line) -> Result<Placing, Memory>
        requires none_open { opens_of self.old.opens ≡ [] }
        requires fits { line_fits (line_of line) ≡ true }
        ensures { Follows (at_edge (state_of self.old) (phase_of self.old.phase) (line_of line)) result self.new }
    {
        match line {
            Line::Header(version) => Ok(self.header(version)),
            Line::Ending(end, query) => self.ending(end, query as u64),
            Line::Rejected(query, answer, at, reason) => {
                self.rejected(query as u64, answer as u64, at as u64, reason)
            }
            Line::Answer(query, answer, terms) => {
                Ok(self.answer(alloc, query as u64, answer as u64, terms))
            }
            Line::Given(con) => self.given(con),
            Line::Sample(terms) => Ok(self.sample(terms)),
            Line::Tree => self.tree(alloc),
            Line::Check(clause) => self.check(alloc, clause),
            Line::Clash(clash) => self.clash(clash),
            Line::Map(map) => self.map(map),
            Line::End => self.end(alloc),
            Line::Pos(_, _, _)
            | Line::Neg(_)
            | Line::Loop(_, _)
            | Line::Seen(_, _)
            | Line::Test(_, _)
            | Line::Rule(_)
            | Line::Split(_)
            | Line::Void(_)
            | Line::Leaf(_)
            | Line::Head => {
                drop(line);
                Ok(Placing::OutOfOrder)
            }
        }
    }

    fn header(&mut self, version: u128) -> Placing
        requires none_open { opens_of self.old.opens ≡ [] }
        ensures { Follows (at_edge (state_of self.old) (phase_of self.old.phase) (lines.header_line version)) (Ok result) self.new }
    {
        if self.phase != Phase::AtStart {
            return Placing::OutOfOrder;
        }
        self.phase = Phase::Between;
        Placing::Stands
    }

    fn ending(&mut self, end: End, query: u64) -> Result<Placing, Memory>
        requires none_open { opens_of self.old.opens ≡ [] }
        ensures { Follows (at_edge (state_of self.old) (phase_of self.old.phase) (lines.ending_line (end_of end) query)) result self.new }
    {
        if self.phase != Phase::Between {
            return Ok(Placing::OutOfOrder);
        }
        self.end_entry(Entry::Ended(end, query))
    }

    fn rejected(
        &mut self,
        query: u64,
        answer: u64,
        at: u64,
        reason: &'static str,
    ) -> Result<Placing, Memory>
        requires none_open { opens_of self.old.opens ≡ [] }
        ensures { Follows (at_edge (state_of self.old) (phase_of self.old.phase) (lines.rejected_line query answer at reason.now)) result self.new }
    {
        if self.phase != Phase::Between {
            return Ok(Placing::OutOfOrder);
        }
        self.end_entry(Entry::Rejected(query, answer, at, reason))
    }

    fn answer(&mut self, alloc: Global, query: u64, answer: u64, terms: Terms) -> Placing
        requires none_open { opens_of self.old.opens ≡ [] }
        ensures { Follows (at_edge (state_of self.old) (phase_of self.old.phase) (lines.answer_line query answer terms)) (Ok result) self.new }
    {
        if self.phase != Phase::Between {
            return Placing::OutOfOrder;
        }
        self.begin_block(alloc, query, answer, terms)
    }

    fn given(&mut self, con: Con) -> Result<Placing, Memory>
        requires none_open { opens_of self.old.opens ≡ [] }
        ensures { Follows (at_edge (state_of self.old) (phase_of self.old.phase) (lines.given_line con)) result self.new }
    {
        if self.phase != Phase::InGiven {
            return Ok(Placing::OutOfOrder);
        }
        self.block.cert.given.push(con)?;
        Ok(Placing::Stands)
    }

    fn sample(&mut self, terms: Terms) -> Placing
        requires none_open { opens_of self.old.opens ≡ [] }
        ensures { Follows (at_edge (state_of self.old) (phase_of self.old.phase) (lines.sample_line terms)) (Ok result) self.new }
    {
        if self.phase != Phase::InGiven {
            return Placing::OutOfOrder;
        }
        self.phase = Phase::InSample;
        self.block.cert.sample = terms;
        Placing::Stands
    }

    fn tree(&mut self, alloc: Global) -> Result<Placing, Memory>
        requires none_open { opens_of self.old.opens ≡ [] }
        ensures { Follows (at_edge (state_of self.old) (phase_of self.old.phase) lines.tree_line) result self.new }
    {
        match self.phase {
            Phase::InSample => {
                self.phase = Phase::InTree;
                self.open(alloc, Line::Tree)
            }
            Phase::AtStart
            | Phase::Between
            | Phase::InGiven
            | Phase::InTree
            | Phase::InClashes
            | Phase::InMap => Ok(Placing::OutOfOrder),
        }
    }

    fn check(&mut self, alloc: Global, clause: u128) -> Result<Placing, Memory>
        requires none_open { opens_of self.old.opens ≡ [] }
        requires fits { line_fits (lines.check_line clause) ≡ true }
        ensures { Follows (at_edge (state_of self.old) (phase_of self.old.phase) (lines.check_line clause)) result self.new }
    {
        if self.phase != Phase::InTree {
            return Ok(Placing::OutOfOrder);
        }
        self.open(alloc, Line::Check(clause))
    }

    fn clash(&mut self, clash: Clash) -> Result<Placing, Memory>
        requires none_open { opens_of self.old.opens ≡ [] }
        ensures { Follows (at_edge (state_of self.old) (phase_of self.old.phase) (lines.clash_line clash)) result self.new }
    {
        match self.phase {
            Phase::InTree | Phase::InClashes => {
                self.phase = Phase::InClashes;
                self.block.cert.clashes.push(clash)?;
                Ok(Placing::Stands)
            }
            Phase::AtStart | Phase::Between | Phase::InGiven | Phase::InSample | Phase::InMap => Ok(
                Placing::OutOfOrder,
            ),
        }
    }

    fn map(&mut self, map: PredMap) -> Result<Placing, Memory>
        requires none_open { opens_of self.old.opens ≡ [] }
        ensures { Follows (at_edge (state_of self.old) (phase_of self.old.phase) (lines.map_line map)) result self.new }
    {
        match self.phase {
            Phase::InTree | Phase::InClashes | Phase::InMap => {
                self.phase = Phase::InMap;
                self.block.cert.map.push(map)?;
                Ok(Placing::Stands)
            }
            Phase::AtStart | Phase::Between | Phase::InGiven | Phase::InSample => {
                Ok(Placing::OutOfOrder)
            }
        }
    }

    fn end(&mut self, alloc: Global) -> Result<Placing, Memory>
        requires none_open { opens_of self.old.opens ≡ [] }
        ensures { Follows (at_edge (state_of self.old) (phase_of self.old.phase) lines.end_line) result self.new }
    {
        match self.phase {
            Phase::InTree | Phase::InClashes | Phase::InMap => self.end_block(alloc),
            Phase::AtStart | Phase::Between | Phase::InGiven | Phase::InSample => {
                Ok(Placing::OutOfOrder)
            }
        }
    }
}
