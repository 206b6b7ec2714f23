//! The grounding of a program.
ghost use Rattle.std.specs.Prelude.{◌≡◌, IfOk};
ghost use Rattle.scasp_model.specs.Grounding.{ground_program};
ghost use Rattle.scasp_ground.specs.Bounded.{is_too_large, overflows};
ghost use Rattle.scasp_ground.specs.Told.{Limits};
ghost use Rattle.scasp_syntax.specs.Tm.{items};

use crate::count::count_instances;
use crate::error::GroundErr;
use crate::instances::push_instances;
use scasp_list::Sequence;
use scasp_model::GroundProgram;
use scasp_syntax::Program;
use scasp_tables::Domain;
use std::alloc::Global;

/// All instances of the program over the domain, without those of which a test is false: the clauses in order, and of each the ways of
/// giving its variables members, the last variable fastest.
///
/// TooLarge exactly where there are more than 1,000,000 before any is dropped, which is told before anything is made. Overflow exactly
/// where there are not, and the sum of some row at some instance is past the range of the numbers. A test behind a false one is not
/// evaluated.
pub fn ground(alloc: Global, program: &Program, domain: &Domain) -> Result<GroundProgram, GroundErr>
    ensures ok { IfOk result (λ g. g ≡ ground_program (items domain.now) program.now) }
    ensures limited { Limits result (is_too_large (items domain.now) program.now) (overflows (items domain.now) program.now) }
{
    let members = domain.len() as u64;
    if count_instances(program.clauses.as_slice(), members).is_none() {
        return Err(GroundErr::TooLarge);
    }
    let mut made = Sequence::new(alloc);
    for clause in program.clauses.as_slice() {
        match push_instances(alloc, domain, clause, &mut made) {
            Ok(()) => {}
            Err(error) => return Err(error),
        }
    }
    Ok(made)
}
