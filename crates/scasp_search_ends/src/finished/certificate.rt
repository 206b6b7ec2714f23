//! Certificates of states.
ghost use Rattle.std.specs.Prelude.{◌≡◌, ◌++◌, IfOk, length, map};
ghost use Rattle.scasp_cert.specs.Certificate.{certificate_of, checks_of};
ghost use Rattle.scasp_cert.specs.View.{trees_of};
ghost use Rattle.scasp_search_ends.specs.Finished.About.{problem_about};
ghost use Rattle.scasp_search_rules.specs.Successors.Answers.{certificate, certificate_at, given_lines, once};
ghost use Rattle.scasp_search_rules.specs.Successors.Cases.{line_under};
ghost use Rattle.scasp_search_rules.specs.Successors.Numbering.{con_renamed, free_variables, line_renamed, placing, universal_variables};
ghost use Rattle.scasp_search_rules.specs.Successors.Trees.{built, literal_lines};
ghost use Rattle.scasp_search_rules.specs.Successors.Variables.{meaning};
ghost use Rattle.scasp_syntax.specs.Values.{all_under};
ghost use Rattle.scasp_unify.specs.Negations.{new_parts};

use crate::finished::building::{literal_lines, trees_built};
use crate::finished::given::{given_lines, once};
use crate::finished::numbering::free_variables;
use crate::finished::renaming::lines_renamed;
use crate::finished::universals::push_all_universals;
use scasp_cert::{Cert, Checks, Clashes, Nodes};
use scasp_lines_places::{all_under, new_parts};
use scasp_list::Memory;
use scasp_sample::{Placing, cons_renamed};
use scasp_search_calls::push_lines;
use scasp_search_rules::{Lines, State};
use scasp_search_terms::reading::read_terms;
use scasp_syntax::{Cons, DeepCopy, PredMaps, Program, Terms, VarList};
use std::alloc::Global;

/// What a certificate is about: the program, the number of its query, and the map of its predicates.
#[derive(Clone, Copy)]
pub struct About<'a> {
    pub program: &'a Program,
    pub query: u64,
    pub map: &'a PredMaps,
}

/// What a state tells: the terms of its query, the given constraints and the lines, as they read.
#[derive(Drop)]
struct Told {
    terms: Terms,
    given: Cons,
    lines: Lines,
}

fn tell(alloc: Global, state: &State, queried: u64) -> Result<Told, Memory>
    ensures terms { IfOk result (λ t. t.terms ≡ all_under (meaning state.now) (new_parts 0 queried)) }
    ensures given { IfOk result (λ t. t.given ≡ given_lines state.now) }
    ensures lines { IfOk result (λ t. t.lines ≡ map (line_under state.now) state.now.lines) }
{
    let parts = new_parts(alloc, 0, queried)?;
    let terms = read_terms(alloc, &parts, state.bound.as_slice())?;
    let given = given_lines(alloc, state)?;
    let mut lines = Lines::new(alloc);
    push_lines(alloc, state, &mut lines)?;
    Ok(Told {
        terms,
        given,
        lines,
    })
}

/// The variables of a certificate: the free ones, and how many they are, and behind them the universal ones.
fn variables(
    alloc: Global,
    program: &Program,
    state: &State,
    told: &Told,
) -> Result<(u64, VarList), Memory>
    ensures free { IfOk result (λ made. made.0 ≡ length (free_variables state.now told.now.terms told.now.given told.now.lines)) }
    ensures all { IfOk result (λ made. made.1 ≡ free_variables state.now told.now.terms told.now.given told.now.lines ++ universal_variables program.now told.now.lines) }
{
    let mut all = free_variables(alloc, state, &told.terms, &told.given, &told.lines)?;
    let free = all.len() as u64;
    push_all_universals(alloc, program, &told.lines, &mut all)?;
    Ok((free, all))
}

fn given_renamed(alloc: Global, by: &Placing, given: &Cons) -> Result<Cons, Memory>
    ensures { IfOk result (λ made. made ≡ once (map (con_renamed (placing by.now.all.now)) given.now)) }
{
    let renamed = cons_renamed(alloc, by, given.as_slice())?;
    once(alloc, renamed.as_slice())
}

fn trees_renamed(alloc: Global, by: &Placing, lines: &Lines) -> Result<(Nodes, Checks), Memory>
    ensures trees { IfOk result (λ made. trees_of made.0 ≡ (built (literal_lines 1 lines.now) (map (line_renamed (placing by.now.all.now)) lines.now)).nodes) }
    ensures checks { IfOk result (λ made. checks_of made.1 ≡ (built (literal_lines 1 lines.now) (map (line_renamed (placing by.now.all.now)) lines.now)).checks) }
{
    let ats = literal_lines(alloc, lines.as_slice())?;
    let renamed = lines_renamed(alloc, by, lines)?;
    trees_built(alloc, ats.as_slice(), renamed)
}

/// The certificate of what a state tells, in which each variable has its place among these.
fn certificate_by(
    alloc: Global,
    about: &About,
    told: &Told,
    free: u64,
    by: &Placing,
) -> Result<Cert, Memory>
    ensures { IfOk result (λ made. certificate_of made ≡ certificate (problem_about about.now.program.now about.now.query about.now.map.now) (all_under (placing by.now.all.now) told.now.terms) (once (map (con_renamed (placing by.now.all.now)) told.now.given)) free (built (literal_lines 1 told.now.lines) (map (line_renamed (placing by.now.all.now)) told.now.lines))) }
{
    let terms = all_under(alloc, &told.terms, by)?;
    let given = given_renamed(alloc, by, &told.given)?;
    let sample = new_parts(alloc, 0, free)?;
    let (trees, checks) = trees_renamed(alloc, by, &told.lines)?;
    Ok(Cert {
        query: about.query,
        terms,
        given,
        sample,
        trees,
        checks,
        clashes: Clashes::new(alloc),
        map: about.map.copy(alloc)?,
    })
}

/// The certificate of a state with nothing left to do, where so many variables are those of the query. In place of the
/// sample stand the free variables themselves, and all hints are `Terms`.
pub fn certificate_at(
    alloc: Global,
    about: &About,
    state: &State,
    queried: u64,
) -> Result<Cert, Memory>
    ensures { IfOk result (λ made. certificate_of made ≡ certificate_at (problem_about about.now.program.now about.now.query about.now.map.now) state.now queried) }
{
    let told = tell(alloc, state, queried)?;
    let (free, all) = variables(alloc, about.program, state, &told)?;
    let by = Placing {
        all: all.as_slice(),
    };
    certificate_by(alloc, about, &told, free, &by)
}
