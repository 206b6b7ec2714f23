//! Small programs, whose models were found by hand and by going through all sets of their atoms.
use scasp_model::{AtomList, GroundClause, GroundProgram, is_stable, is_without_not, least};
use scasp_name::Memory;
use scasp_syntax::Sequence;
use scasp_test_samples::{Name, P, Q, R, Rule, S, T, atom, literal};
use std::alloc::Global;
use std::process::Abort;
use std::test::Fail;

/// A program, the atoms of its least model in order of rounds where it is without `not`, and lists of atoms, each with
/// whether it is a stable model.
struct Sample<'a> {
    rules: &'a [Rule<'a>],
    least: Option<&'a [Name]>,
    tried: &'a [(&'a [Name], bool)],
}

const SAMPLES: &[Sample] = &[
    // p :- q. q :- r. r.
    Sample {
        rules: &[
            (Some(P), &[(true, Q)]),
            (Some(Q), &[(true, R)]),
            (Some(R), &[]),
        ],
        least: Some(&[R, Q, P]),
        tried: &[(&[P, Q, R], true), (&[Q, R], false), (&[R, R, Q, P], true)],
    },
    // p :- q. q :- p. r. s :- r, p. t :- r. :- s.
    Sample {
        rules: &[
            (Some(P), &[(true, Q)]),
            (Some(Q), &[(true, P)]),
            (Some(R), &[]),
            (Some(S), &[(true, R), (true, P)]),
            (Some(T), &[(true, R)]),
            (None, &[(true, S)]),
        ],
        least: Some(&[R, T]),
        tried: &[
            (&[T, R], true),
            (&[P, Q, R, S, T], false),
            (&[P, Q, R, T], false),
        ],
    },
    // p :- not q. q :- not p.
    Sample {
        rules: &[(Some(P), &[(false, Q)]), (Some(Q), &[(false, P)])],
        least: None,
        tried: &[(&[P], true), (&[Q], true), (&[], false), (&[P, Q], false)],
    },
    // p :- not q. q :- not p. r :- p. :- p, not r. :- q, not r.
    Sample {
        rules: &[
            (Some(P), &[(false, Q)]),
            (Some(Q), &[(false, P)]),
            (Some(R), &[(true, P)]),
            (None, &[(true, P), (false, R)]),
            (None, &[(true, Q), (false, R)]),
        ],
        least: None,
        tried: &[
            (&[P, R], true),
            (&[Q], false),
            (&[P], false),
            (&[Q, R], false),
        ],
    },
    // p :- not p.
    Sample {
        rules: &[(Some(P), &[(false, P)])],
        least: None,
        tried: &[(&[], false), (&[P], false)],
    },
];

fn ground_program(alloc: Global, rules: &[Rule]) -> Result<GroundProgram, Memory> {
    let mut program = Sequence::new(alloc);
    for (head, literals) in rules {
        let mut body = Sequence::new(alloc);
        for written in *literals {
            body.push(literal(alloc, *written)?)?;
        }
        let head = match head {
            Some(name) => Some(atom(alloc, *name)?),
            None => None,
        };
        program.push(GroundClause { head, body })?;
    }
    Ok(program)
}

fn atom_list(alloc: Global, names: &[Name]) -> Result<AtomList, Memory> {
    let mut atoms = Sequence::new(alloc);
    for name in names {
        atoms.push(atom(alloc, *name)?)?;
    }
    Ok(atoms)
}

fn has_names(atoms: &AtomList, names: &[Name]) -> bool {
    atoms.len() == names.len()
        && atoms
            .as_slice()
            .iter()
            .zip(names)
            .all(|(atom, name)| atom.name.place() == name.place)
}

fn test_sample(rt: &impl Abort, alloc: Global, sample: &Sample) -> Result<(), Memory> {
    let program = ground_program(alloc, sample.rules)?;
    if is_without_not(&program) {
        let model = least(alloc, &program)?;
        assert!(rt; sample.least.is_some_and(|names| has_names(&model, names)));
    } else {
        assert!(rt; sample.least.is_none());
    }
    for (names, expected) in sample.tried {
        let atoms = atom_list(alloc, names)?;
        assert_eq!(rt; is_stable(alloc, &program, &atoms)?, *expected);
    }
    Ok(())
}

#[test]
fn small_programs_have_these_models(rt: HostRuntime) -> Result<(), Fail> {
    for sample in SAMPLES {
        test_sample(&rt, rt.alloc(), sample)?;
    }
    Ok(())
}
