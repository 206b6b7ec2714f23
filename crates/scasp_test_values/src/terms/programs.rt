//! Programs and flat bodies: each call that takes memory, once with ample memory.
ghost use Rattle.std.specs.Prelude.{◌≡◌, IfOk, IsTrue};
ghost use Rattle.scasp_syntax.specs.Tm.{cons, nil};
ghost use Rattle.scasp_syntax.specs.View.{tm_of};
ghost use Rattle.scasp_syntax.specs.WellFormed.{is_clause_well_formed};

use crate::rows::row_of;
use scasp_name::{Memory, NameId};
use scasp_num::{Op, Row};
use scasp_syntax::{
    Atom, Clause, Con, DeepCopy, FlatItem, FlatItems, Hint, Item, Items, Lin, Lit, PredMap,
    Program, Sequence, Term, Terms, flat,
};
use std::alloc::Global;
use std::test::Fail;

/// The literal `-p(V0)`.
fn literal(alloc: Global, positive: bool) -> Result<Lit, Memory>
    ensures { IfOk result (λ l. l.atom.args ≡ cons (tm_of (Term.Var 0)) nil) }
{
    let mut args = Terms::new(alloc);
    args.push(Term::Var(0))?;
    let name = NameId::new(2);
    Ok(Lit {
        positive,
        atom: Atom {
            minus: true,
            name,
            args,
        },
    })
}

/// The rule `-p(V0) :- not -p(V0).`
fn rule(alloc: Global) -> Result<Clause, Memory>
    ensures { IfOk result (λ c. IsTrue (is_clause_well_formed c)) }
{
    let Lit { atom, .. } = literal(alloc, true)?;
    let mut body = Sequence::new(alloc);
    body.push(Item::Call(literal(alloc, false)?))?;
    Ok(Clause {
        head: Some(atom),
        body,
        vars: 1,
    })
}

/// The program of this rule alone.
fn program(alloc: Global) -> Result<Program, Memory> {
    let mut clauses = Sequence::new(alloc);
    clauses.push(rule(alloc)?)?;
    Ok(Program {
        clauses,
        queries: Sequence::new(alloc),
        abducibles: Sequence::new(alloc),
    })
}

fn copied_program(alloc: Global) -> Result<Program, Memory> {
    let program = program(alloc)?;
    program.copy(alloc)
}

#[test]
fn programs_are_copied(rt: HostRuntime) -> Result<(), Fail> {
    let copied = copied_program(rt.alloc())?;
    assert!(rt; copied.clause(0).is_none());
    assert!(rt; copied.clause(2).is_none());
    assert!(rt; copied.query(1).is_none());
    Ok(())
}

/// How many arguments the head has, whether it has `-`, and how many items the body has; none where there is no head.
fn told(clause: &Clause) -> Option<(u64, bool, usize)> {
    let pred = clause.head.as_ref()?.pred();
    Some((pred.arity, pred.minus, clause.body.len()))
}

#[test]
fn rules_are_copied(rt: HostRuntime) -> Result<(), Fail> {
    let copied = copied_program(rt.alloc())?;
    assert!(rt; copied.clause(1).and_then(told) == Some((1, true, 1)));
    Ok(())
}

fn entry(alloc: Global) -> Result<PredMap, Memory> {
    let pred = literal(alloc, true)?.atom.pred();
    Ok(PredMap {
        pred,
        level: 4,
        plus: true,
    })
}

#[test]
fn maps_are_copied(rt: HostRuntime) -> Result<(), Fail> {
    let alloc = rt.alloc();
    let entry = entry(alloc)?;
    let mut map = Sequence::new(alloc);
    map.push(entry)?;
    assert_eq!(rt; map.copy(alloc)?.as_slice(), [entry].as_slice());
    Ok(())
}

#[test]
fn tests_are_copied(rt: HostRuntime) -> Result<(), Fail> {
    let alloc = rt.alloc();
    let test = FlatItem::Test(Con::Num(Term::Var(0)));
    assert!(rt; matches!(&test.copy(alloc)?, FlatItem::Test(Con::Num(_))));
    Ok(())
}

#[test]
fn hints_are_copied(rt: HostRuntime) -> Result<(), Fail> {
    assert!(rt; matches!(&Hint::Terms.copy(rt.alloc())?, Hint::Terms));
    Ok(())
}

/// The row `-V0+10 #< 0`.
fn row(alloc: Global) -> Result<Row, Fail> {
    row_of(alloc, &[(0, -1)], 10, Op::Lt)
}

/// V0 and V1.
fn variables(alloc: Global) -> Result<Sequence<u64>, Memory> {
    let mut vars = Sequence::new(alloc);
    vars.push(0u64)?;
    vars.push(1u64)?;
    Ok(vars)
}

/// The item `V0 #> 10`, written with V0 and V1.
fn above_ten(alloc: Global) -> Result<Item, Fail> {
    let vars = variables(alloc)?;
    Ok(Item::Linear(Lin {
        vars,
        row: row(alloc)?,
    }))
}

fn push_items(alloc: Global, body: &mut Items) -> Result<(), Fail> {
    body.push(Item::Call(literal(alloc, true)?))?;
    body.push(above_ten(alloc)?)?;
    body.push(Item::Equal(Term::Var(0), Term::Var(1)))?;
    body.push(above_ten(alloc)?)?;
    Ok(())
}

fn flat_items(alloc: Global) -> Result<FlatItems, Fail> {
    let mut body = Sequence::new(alloc);
    push_items(alloc, &mut body)?;
    let clause = Clause {
        head: None,
        body,
        vars: 2,
    };
    Ok(flat(alloc, &clause)?)
}

/// What an item is, in a word.
fn kind(item: &FlatItem) -> &'static str {
    match item {
        FlatItem::Call(_) => "call",
        FlatItem::Test(Con::Num(Term::Var(0))) => "num(V0)",
        FlatItem::Test(Con::Num(Term::Var(1))) => "num(V1)",
        FlatItem::Test(Con::Row(_)) => "row",
        FlatItem::Test(Con::Eq(..)) => "equation",
        FlatItem::Test(_) => "other",
    }
}

#[test]
fn bodies_are_made_flat(rt: HostRuntime) -> Result<(), Fail> {
    let items = flat_items(rt.alloc())?;
    assert_eq!(rt; items.len(), 6);
    let wanted = ["call", "num(V0)", "num(V1)", "row", "equation", "row"];
    for (item, word) in items.as_slice().iter().zip(wanted) {
        assert!(rt; kind(item) == word);
    }
    Ok(())
}
