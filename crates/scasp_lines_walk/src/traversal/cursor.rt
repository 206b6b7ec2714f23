//! The lines of a certificate, one after the other.
ghost use Rattle.std.specs.Prelude.{◌≡◌, ◌∷◌, ◌++◌, List, [], suc, IfOk, IfSome, OnOk, MatchOption};
ghost use Rattle.scasp_cert.specs.Certificate.{certificate_of, checks_of};
ghost use Rattle.scasp_cert.specs.Trees.{listed};
ghost use Rattle.scasp_cert.specs.View.{trees_of};
ghost use Rattle.scasp_lines.specs.Contexts.{context};
ghost use Rattle.scasp_lines.specs.Dues.{query_dues};
ghost use Rattle.scasp_lines.specs.Lines.{lines};
ghost use Rattle.scasp_lines.specs.Places.{start};
ghost use Rattle.scasp_lines.specs.Walk.{line};
ghost use Rattle.scasp_lines_places.specs.Places.View.{place_of};
ghost use Rattle.scasp_syntax.specs.Programs.{numbered};
ghost use Rattle.scasp_syntax.specs.declared.con.Con.{Con as ThisCon};
ghost use Rattle.scasp_lines_walk.specs.Traversal.Going.{GoesOn, IsReady, size_at};
ghost use Rattle.scasp_lines_walk.specs.Traversal.Pending.{below, checks, nodes};
ghost use Rattle.scasp_lines_walk.specs.Traversal.View.{begun_of, kept_with, line_of, lines_left, part_of, rest_of, setting_of, stack_of};

use crate::traversal::entering::{enter, put_nodes};
use crate::traversal::parts::{Line, Part};
use crate::traversal::waiting::{Begun, Stacked, Waiting, begin, put};
use scasp_cert::Cert;
use scasp_lines_places::{Bounds, Place, constraint_count, query_dues, top};
use scasp_list::Memory;
use scasp_syntax::Program;
use std::alloc::Global;

/// The lines of a certificate that have still to come, from the first to the last. What stands below a line and behind it
/// waits on a stack of its own, so the machine's stack does not grow with the depth of the certificate.
#[derive(Drop)]
pub struct Lines<'a> {
    program: &'a Program,
    bounds: Bounds,
    at: u64,
    next: u64,
    waiting: Vec<Stacked<'a>>,
}

impl<'a> Lines<'a> {
    /// All lines of the certificate.
    pub fn of(alloc: Global, program: &'a Program, cert: &'a Cert) -> Result<Lines<'a>, Memory>
        ensures lines { IfOk result (λ made. lines_left made ≡ lines program.now (certificate_of cert.now)) }
        ensures ready { IfOk result (λ made. IsReady [] made) }
    {
        let bounds = Bounds {
            free: cert.sample.len() as u64,
            top: top(program, cert)?,
        };
        Ok(Lines {
            program,
            bounds,
            at: 1,
            next: bounds.free,
            waiting: all_waiting(alloc, program, cert, bounds.top)?,
        })
    }

    /// The next line, or none where all have come. It takes memory for what stands right below the line; numbers of lines
    /// or of variables past the range of numbers are want of memory. After an error it is not told what is left.
    pub fn next(&mut self, alloc: Global) -> Result<Option<Line<'a>>, Memory>
        ensures lines { IfOk result (λ found. MatchOption found (lines_left self.old ≡ []) (λ line. lines_left self.old ≡ line_of line ∷ lines_left self.new)) }
        ensures ready { (now : List ThisCon) → IsReady now self.old → IfOk result (λ found. IfSome found (λ line. GoesOn now line self.new)) }
    {
        while let Some(Stacked { kept, parts }) = self.waiting.pop() {
            if let Some(begun) = begin(parts)? {
                return Ok(Some(self.start(alloc, kept, begun)?));
            }
        }
        Ok(None)
    }

    /// The line that this begins with, below one at which so many constraints opened; what stands right below it, and what
    /// stands behind it, waits from now on.
    fn start(&mut self, alloc: Global, kept: usize, begun: Begun<'a>) -> Result<Line<'a>, Memory>
        ensures line { IfOk result (λ made. line_of made ≡ line self.old.at self.old.next (begun_of begun.entry).here (begun_of begun.entry).part) }
        ensures kept { IfOk result (λ made. made.kept ≡ kept) }
        ensures size { IfOk result (λ made. made.size ≡ size_at kept (begun_of begun.entry).part (context [] (begun_of begun.entry).here.opened)) }
        ensures waiting { IfOk result (λ made. stack_of self.new.waiting.items ≡ kept_with made.size (below (setting_of self.old.program.now self.old.bounds) self.old.at self.old.next (begun_of begun.entry).here (begun_of begun.entry).part).waiting ++ (kept_with kept (begun_of begun.entry).rest ++ stack_of self.old.waiting.items)) }
        ensures next { IfOk result (λ made. self.new.next ≡ (below (setting_of self.old.program.now self.old.bounds) self.old.at self.old.next (begun_of begun.entry).here (begun_of begun.entry).part).next) }
        ensures at { IfOk result (λ made. self.new.at ≡ suc self.old.at) }
        ensures program { IfOk result (λ made. self.new.program.now ≡ self.old.program.now) }
        ensures bounds { IfOk result (λ made. self.new.bounds ≡ self.old.bounds) }
    {
        let Begun { here, part, rest } = begun;
        put_rest(&mut self.waiting, kept, rest)?;
        let line = Line {
            at: self.at,
            next: self.next,
            size: size_at(kept, &part, &here)?,
            kept,
            here,
            part,
        };
        self.next = enter(alloc, self.program, self.bounds, &line, &mut self.waiting)?;
        self.at = self.at.checked_add(1).ok_or(Memory)?;
        Ok(line)
    }
}

/// How many constraints opened on the way to a line below one at which `kept` did: more only at a case.
fn size_at(kept: usize, part: &Part, here: &Place) -> Result<usize, Memory>
    ensures { IfOk result (λ size. size ≡ size_at kept (part_of part.now) (context [] (place_of here.now).opened)) }
{
    match part {
        Part::Case { .. } => constraint_count(&here.opened),
        Part::Node { .. } | Part::Rule { .. } | Part::Check { .. } => Ok(kept),
    }
}

/// Puts the parts behind the first before what waits, if there are any.
fn put_rest<'a>(
    waiting: &mut Vec<Stacked<'a>>,
    kept: usize,
    rest: Option<Waiting<'a>>,
) -> Result<(), Memory>
    ensures { OnOk result (stack_of waiting.new.items ≡ kept_with kept (rest_of rest.entry) ++ stack_of waiting.old.items) }
{
    match rest {
        None => Ok(()),
        Some(rest) => put(waiting, kept, rest),
    }
}

/// All of a certificate: the trees of the query, and then the checks.
fn all_waiting<'a>(
    alloc: Global,
    program: &Program,
    cert: &'a Cert,
    top: u64,
) -> Result<Vec<Stacked<'a>>, Memory>
    ensures { IfOk result (λ made. stack_of made.items ≡ (0, nodes (start top) (query_dues (numbered program.now.queries cert.now.query) cert.now.terms) (listed (trees_of cert.now.trees))) ∷ (0, checks (start top) (checks_of cert.now.checks)) ∷ []) }
{
    let mut waiting = Vec::new(alloc);
    put(
        &mut waiting,
        0,
        Waiting::Checks {
            rest: cert.checks.as_slice(),
            here: Place::start(top),
        },
    )?;
    let dues = query_dues(alloc, program.query(cert.query), &cert.terms)?;
    put_nodes(&mut waiting, 0, Place::start(top), dues, &cert.trees)?;
    Ok(waiting)
}
