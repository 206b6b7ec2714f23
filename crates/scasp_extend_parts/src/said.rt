//! What the lines of a certificate say over a domain.
ghost use Rattle.std.specs.Prelude.{◌≡◌, ◌^◌, [], nat_lt, length, true, false, IfOk, OnOk};
ghost use Rattle.scasp_cert.specs.Certificate.{certificate_of};
ghost use Rattle.scasp_extend_instances.specs.Values.{valued};
ghost use Rattle.scasp_extend_instances.specs.View.{ways_of};
ghost use Rattle.scasp_extend_instances.specs.Within.{overflows, ranging};
ghost use Rattle.scasp_extend_levels.specs.Sets.{with_atoms};
ghost use Rattle.scasp_extend_parts.specs.Causes.{Explains};
ghost use Rattle.scasp_extend_parts.specs.Inside.{part_says};
ghost use Rattle.scasp_extend_parts.specs.Obstacles.{line_obstacle, lines_obstacle, overflow_if, too_large_if, unless_closed};
ghost use Rattle.scasp_lines.specs.Lines.{lines};
ghost use Rattle.scasp_lines.specs.Said.{atoms_of, false_atoms, said_by_line, true_atoms};
ghost use Rattle.scasp_lines.specs.Ways.{ways};
ghost use Rattle.scasp_lines_places.specs.Places.View.{all_opened};
ghost use Rattle.scasp_lines_walk.specs.Traversal.View.{line_of, part_of};
ghost use Rattle.scasp_syntax.specs.Tm.{items};

use crate::errors::ExtendErr;
use crate::literals::add_node;
use crate::told::Told;
use scasp_cert::Cert;
use scasp_extend_instances::{Way, ranging, ways_of};
use scasp_ground::power;
use scasp_lines_places::{Chain, Entry};
use scasp_lines_walk::{Line, Lines, Part};
use scasp_list::Sequence;
use scasp_syntax::{Program, Terms};
use scasp_tables::Domain;
use std::alloc::Global;

/// Tests that there are at most 1,000,000 ways of giving the clause variables that opened members of the domain.
fn within_limit(domain: &Domain, opened: &Chain<Entry>) -> Result<(), ExtendErr>
    ensures { Explains result (too_large_if (nat_lt 1000000 (length (items domain.now) ^ ranging (all_opened opened.now)))) }
{
    let variables = ranging(opened)?;
    match power(domain.len() as u64, variables) {
        Some(_) => Ok(()),
        None => Err(ExtendErr::TooLarge),
    }
}

/// All instances of what opened over the domain.
fn instances_of<'a>(
    alloc: Global,
    domain: &Domain,
    opened: &Chain<Entry>,
    values: &'a Terms,
) -> Result<Sequence<Way<'a>>, ExtendErr>
    ensures causes { Explains result (overflow_if (overflows (items domain.now) (all_opened opened.now) (valued (items values.now)))) }
    ensures ways { IfOk result (λ made. ways_of made ≡ ways (items domain.now) (all_opened opened.now) (valued (items values.now))) }
{
    match ways_of(alloc, domain.terms(), opened, values) {
        Ok(made) => Ok(made),
        Err(error) => Err(ExtendErr::from(error)),
    }
}

/// Adds what stands on the line says at the instances.
fn add_part(
    alloc: Global,
    domain: &Domain,
    ways: &[Way],
    line: &Line,
    told: &mut Told,
) -> Result<(), ExtendErr>
    ensures causes { Explains result (unless_closed (items domain.now) line.now.at (part_says (part_of line.now.part) (ways_of ways.now))) }
    ensures trues { OnOk result (told.new.trues ≡ with_atoms told.old.trues (atoms_of true (part_says (part_of line.now.part) (ways_of ways.now)))) }
    ensures falses { OnOk result (told.new.falses ≡ with_atoms told.old.falses (atoms_of false (part_says (part_of line.now.part) (ways_of ways.now)))) }
{
    match &line.part {
        Part::Node { node, .. } => add_node(alloc, domain, ways, line.at, *node, told),
        Part::Rule { .. } => Ok(()),
        Part::Check { .. } => Ok(()),
        Part::Case { .. } => Ok(()),
    }
}

/// Adds what the line says at the instances of what opened around it.
fn add_line(
    alloc: Global,
    domain: &Domain,
    values: &Terms,
    line: &Line,
    told: &mut Told,
) -> Result<(), ExtendErr>
    ensures causes { Explains result (line_obstacle (valued (items values.now)) (items domain.now) (line_of line.now)) }
    ensures trues { OnOk result (told.new.trues ≡ with_atoms told.old.trues (atoms_of true (said_by_line (valued (items values.now)) (items domain.now) (line_of line.now)))) }
    ensures falses { OnOk result (told.new.falses ≡ with_atoms told.old.falses (atoms_of false (said_by_line (valued (items values.now)) (items domain.now) (line_of line.now)))) }
{
    within_limit(domain, &line.here.opened)?;
    let ways = instances_of(alloc, domain, &line.here.opened, values)?;
    add_part(alloc, domain, ways.as_slice(), line, told)
}

/// The same, and lets the line go.
fn take_line(
    alloc: Global,
    domain: &Domain,
    values: &Terms,
    line: Line,
    told: &mut Told,
) -> Result<(), ExtendErr>
    ensures causes { Explains result (line_obstacle (valued (items values.now)) (items domain.now) (line_of line.entry)) }
    ensures trues { OnOk result (told.new.trues ≡ with_atoms told.old.trues (atoms_of true (said_by_line (valued (items values.now)) (items domain.now) (line_of line.entry)))) }
    ensures falses { OnOk result (told.new.falses ≡ with_atoms told.old.falses (atoms_of false (said_by_line (valued (items values.now)) (items domain.now) (line_of line.entry)))) }
{
    add_line(alloc, domain, values, &line, told)
}

/// What the lines of the certificate say over the domain, where the free variables have these values: each atom once, in the order
/// of the lines and of their instances.
///
/// # Errors
///
/// The obstacle of the first line that has one: more than 1,000,000 ways of giving the clause variables that opened around it members
/// of the domain; else a row that is past the range of the numbers at an instance; else a term that is listed on the line with a value
/// outside the domain. Want of memory.
pub fn said_over(
    alloc: Global,
    program: &Program,
    cert: &Cert,
    values: &Terms,
    domain: &Domain,
) -> Result<Told, ExtendErr>
    ensures causes { Explains result (lines_obstacle (valued (items values.now)) (items domain.now) (lines program.now (certificate_of cert.now))) }
    ensures trues { IfOk result (λ told. told.trues ≡ with_atoms [] (true_atoms program.now (certificate_of cert.now) (valued (items values.now)) (items domain.now))) }
    ensures falses { IfOk result (λ told. told.falses ≡ with_atoms [] (false_atoms program.now (certificate_of cert.now) (valued (items values.now)) (items domain.now))) }
{
    let mut told = Told::new(alloc, domain.hash_keys());
    let mut lines = Lines::of(alloc, program, cert)?;
    while let Some(line) = lines.next(alloc)? {
        take_line(alloc, domain, values, line, &mut told)?;
    }
    Ok(told)
}
