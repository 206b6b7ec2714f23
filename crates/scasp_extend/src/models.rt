//! What a certificate says is true, with the levelled model of what it leaves.
ghost use Rattle.std.specs.Prelude.{◌++◌, List, IsTrue, IfOk};
ghost use Rattle.std.specs.Option.{option_or};
ghost use Rattle.scasp_cert.specs.Certificate.{certificate_of};
ghost use Rattle.scasp_extend_instances.specs.Values.{valued};
ghost use Rattle.scasp_extend_levels.specs.Sorted.{IsSorted};
ghost use Rattle.scasp_extend_parts.specs.Causes.{Explains};
ghost use Rattle.scasp_extend_parts.specs.Obstacles.{grounding_obstacle, lines_obstacle};
ghost use Rattle.scasp_law_extension.specs.Above.{model_above};
ghost use Rattle.scasp_lines.specs.Lines.{lines};
ghost use Rattle.scasp_model.specs.Atoms.{SameAtoms, are_distinct};
ghost use Rattle.scasp_model.specs.Grounding.{ground_program};
ghost use Rattle.scasp_model.specs.Levelled.{levelled_model};
ghost use Rattle.scasp_model.specs.Residual.{residual};
ghost use Rattle.scasp_model.specs.declared.program.GroundClause.{GroundClause as ThisClause};
ghost use Rattle.scasp_sound.specs.MapLevels.{level_of, plus_of};
ghost use Rattle.scasp_syntax.specs.Tm.{items};
ghost use Rattle.scasp_syntax.specs.declared.predicate_map.PredMap.{PredMap as ThisMap};

use scasp_cert::Cert;
use scasp_extend_levels::{Levels, add_all};
use scasp_extend_parts::{ExtendErr, Told, left_over, said_over};
use scasp_list::Memory;
use scasp_model::AtomList;
use scasp_syntax::{PredMaps, Program, Terms};
use scasp_tables::{AtomTable, Domain};
use std::alloc::Global;

/// The atoms, and behind them those of the levelled model of the rules that are new.
fn with_levelled(alloc: Global, rules: Levels, trues: AtomTable) -> Result<AtomList, Memory>
    ensures atoms { IfOk result (λ atoms. (map : List ThisMap) (g : List ThisClause) → IsSorted map rules g → SameAtoms atoms (trues ++ levelled_model (level_of map) (plus_of map) g)) }
    ensures distinct { IfOk result (λ atoms. IsTrue (are_distinct atoms)) }
{
    let mut model = trues;
    let rest = rules.model(alloc)?;
    add_all(alloc, &mut model, rest.as_slice())?;
    Ok(model.into_atoms())
}

/// What is told to be true, with the levelled model of what it leaves of the program over the domain.
fn model_of(
    alloc: Global,
    program: &Program,
    map: &PredMaps,
    domain: &Domain,
    told: Told,
) -> Result<AtomList, ExtendErr>
    ensures causes { Explains result (grounding_obstacle program.now (items domain.now)) }
    ensures atoms { IfOk result (λ atoms. SameAtoms atoms (told.trues ++ levelled_model (level_of map.now) (plus_of map.now) (residual told.trues told.falses (ground_program (items domain.now) program.now)))) }
    ensures distinct { IfOk result (λ atoms. IsTrue (are_distinct atoms)) }
{
    let left = left_over(alloc, program, map, domain, &told)?;
    let Told {
        trues,
        falses: _falses,
    } = told;
    Ok(with_levelled(alloc, left, trues)?)
}

/// The same of what the certificate says where its free variables have these values.
///
/// # Errors
///
/// The obstacle of the first line that has one; else that of the program's instances; want of memory.
pub(crate) fn model_above(
    alloc: Global,
    program: &Program,
    cert: &Cert,
    values: &Terms,
    domain: &Domain,
) -> Result<AtomList, ExtendErr>
    ensures causes { Explains result (option_or (lines_obstacle (valued (items values.now)) (items domain.now) (lines program.now (certificate_of cert.now))) (grounding_obstacle program.now (items domain.now))) }
    ensures atoms { IfOk result (λ atoms. SameAtoms atoms (model_above program.now (certificate_of cert.now) (valued (items values.now)) (items domain.now))) }
    ensures distinct { IfOk result (λ atoms. IsTrue (are_distinct atoms)) }
{
    let told = said_over(alloc, program, cert, values, domain)?;
    model_of(alloc, program, &cert.map, domain, told)
}
