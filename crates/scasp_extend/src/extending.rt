//! The model above an answer.
ghost use Rattle.std.specs.Prelude.{IsTrue, IfOk};
ghost use Rattle.std.specs.Option.{option_or};
ghost use Rattle.scasp_cert.specs.Certificate.{certificate_of};
ghost use Rattle.scasp_extend.specs.Extension.{obstacle};
ghost use Rattle.scasp_extend_instances.specs.Values.{valued};
ghost use Rattle.scasp_extend_parts.specs.Causes.{Explains};
ghost use Rattle.scasp_extend_parts.specs.Obstacles.{given_unmet, grounding_obstacle, lines_obstacle};
ghost use Rattle.scasp_law_extension.specs.Above.{IsModelAbove, model_above};
ghost use Rattle.scasp_lines.specs.Lines.{lines};
ghost use Rattle.scasp_model.specs.Atoms.{SameAtoms, are_distinct};
ghost use Rattle.scasp_syntax.specs.Tm.{items};

use crate::models::model_above;
use crate::worth::accept_right;
use scasp_cert::Cert;
use scasp_extend_parts::{ExtendErr, accept_values};
use scasp_law_promise::see_rows;
use scasp_model::AtomList;
use scasp_syntax::{Program, Terms};
use scasp_tables::Domain;
use std::alloc::Global;

/// A whole stable model of the program over the domain, above what the certificate says where its free variables have the values
/// `theta`: the atoms that the certificate says are true, with the levelled model, by its map, of what it leaves of the program. So it
/// has each atom that the certificate says is true, and none that it says is false. Each atom stands once.
///
/// Stable models are those of Gelfond and Lifschitz (1988). Within a level the two signs take turns, as in an alternating fixed point
/// (Van Gelder 1993).
///
/// # Errors
///
/// The first of these that there is:
/// - Refused where the certificate is not accepted, with its first fault; Joins where its map is broken, with the first clause that
///   breaks it; both as `check` tells.
/// - Given where the values are not as many as the free variables, or not ground, or do not meet what is given; Overflow where the sum
///   of a row that is given is past the range of the numbers, before the first constraint that they do not meet.
/// - At the first line that has an obstacle: TooLarge where there are more than 1,000,000 ways of giving the clause variables that
///   opened around it members of the domain; else Overflow where a row that opened around it is past the range of the numbers at an
///   instance; else NotClosed where a term that is listed on it has a value outside the domain.
/// - TooLarge and Overflow as of `ground`.
///
/// Memory is want of memory, at any time.
pub fn extend(
    alloc: Global,
    program: &Program,
    cert: &Cert,
    theta: &Terms,
    domain: &Domain,
) -> Result<AtomList, ExtendErr>
    ensures causes { Explains result (obstacle program.now (certificate_of cert.now) theta.now (items domain.now)) }
    ensures atoms { IfOk result (λ atoms. SameAtoms atoms (model_above program.now (certificate_of cert.now) (valued (items theta.now)) (items domain.now))) }
    ensures distinct { IfOk result (λ atoms. IsTrue (are_distinct atoms)) }
    ensures above { IfOk result (λ atoms. IsModelAbove program.now (certificate_of cert.now) (valued (items theta.now)) (items domain.now) atoms) }
{
    see_rows(cert);
    let _members = domain.terms();
    accept_right(alloc, program, cert)?;
    extend_right(alloc, program, cert, theta, domain)
}

/// The same of a certificate that is right.
fn extend_right(
    alloc: Global,
    program: &Program,
    cert: &Cert,
    theta: &Terms,
    domain: &Domain,
) -> Result<AtomList, ExtendErr>
    ensures causes { Explains result (option_or (given_unmet (certificate_of cert.now) theta.now) (option_or (lines_obstacle (valued (items theta.now)) (items domain.now) (lines program.now (certificate_of cert.now))) (grounding_obstacle program.now (items domain.now)))) }
    ensures atoms { IfOk result (λ atoms. SameAtoms atoms (model_above program.now (certificate_of cert.now) (valued (items theta.now)) (items domain.now))) }
    ensures distinct { IfOk result (λ atoms. IsTrue (are_distinct atoms)) }
{
    accept_values(alloc, cert, theta)?;
    model_above(alloc, program, cert, theta, domain)
}
