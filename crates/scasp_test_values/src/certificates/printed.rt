//! Certificates, and their blocks written out by hand.
use crate::certificates::made::{boxed, certificate, covers, nodes, terms};
use crate::rows::row_of;
use scasp_cert::{Case, Cert, Check, Clash, Cover, Covers, Node, Nodes};
use scasp_name::{Memory, NIL, NameId, Names, PAIR};
use scasp_num::{Op, Rat, Step, StepLists, Steps};
use scasp_print::print_cert;
use scasp_syntax::{Atom, Con, Cons, Hint, Pred, PredMap, Term, Terms};
use scasp_test_samples::{Literal, Name, P, Q, R, S, T, atom, literal, map_of, one, pred};
use std::alloc::Global;
use std::hash::RandomState;
use std::process::Abort;
use std::test::Fail;

const FACT: &str = "answer 1.1 []
sample []
tree
 pos p rule 1 []
map p/0 0 +
end
";

const EVEN_LOOP: &str = "answer 1.1 []
sample []
tree
 pos p rule 1 []
  neg q
   rule 2
    leaf 1
     loop p at 1
map p/0 0 +
map q/0 0 -
end
";

const ALL_FORMS: &str = "answer 2.1 [V0,[p,q|V1],[p],'not','it\\'s']
given V0 \\= p
given V1 \\= ok/2
given num(V0)
sample [p,[]]
tree
 pos p(V0,p) rule 3 [V0]
  test V0 = p terms
  neg -q
   rule 4
    split V0 \\= q
     void rows [1*2+-3*4]
     leaf 2
      seen not q at 5
   rule 5
    head
     loop not q at 1
check 6
 void same 1 [1*2+-3*4;1*2+-3*4,-1*5+6*7]
clash 1 3 terms
map -q/0 1 -
end
";

const NUMBERS: &str = "answer 1.1 [V0,V1]
given num(V0)
given num(V1)
given 4*V0+3*V1-1 #= 0
given 5*V0-V1-2 #= 0
given -V0+3 #< 0
given V0-V1 #=< 0
given 1 #<> 0
sample [7/19,-3/19]
tree
 pos p rule 1 []
map p/0 0 +
end
";

/// The names `p`, `q`, `not`, `ok` and `it's`, from number 2.
fn table(alloc: Global, keys: RandomState) -> Result<Names, Fail> {
    let mut names = Names::new(alloc, keys)?;
    for text in ["p", "q", "not", "ok", "it's"] {
        let _ = names.intern(text)?;
    }
    Ok(names)
}

fn constant(alloc: Global, name: Name) -> Term {
    Term::App(NameId::new(name.place), Terms::new(alloc))
}

fn pair(alloc: Global, first: Term, rest: Term) -> Result<Term, Memory> {
    let mut args = terms(alloc, first)?;
    args.push(rest)?;
    Ok(Term::App(PAIR, args))
}

/// A line `p` by rule 1 with these lines below it.
fn line(alloc: Global, children: Nodes) -> Result<Node, Memory> {
    Ok(Node::Pos {
        atom: atom(alloc, P)?,
        rule: 1,
        terms: Terms::new(alloc),
        children,
    })
}

/// The certificate of this line alone.
fn fact(alloc: Global, children: Nodes) -> Result<Cert, Memory> {
    let trees = nodes(alloc, line(alloc, children)?)?;
    let mut cert = certificate(alloc, trees);
    cert.map = map_of(alloc, &[(P, 0, true)])?;
    Ok(cert)
}

/// The list of a loop to the first line.
fn looped(alloc: Global, written: Literal) -> Result<Nodes, Memory> {
    let lit = literal(alloc, written)?;
    nodes(alloc, Node::Loop { lit, at: 1 })
}

fn one_cover(alloc: Global) -> Result<Covers, Memory> {
    let children = looped(alloc, (true, P))?;
    let case = Case::Leaf { item: 1, children };
    covers(alloc, 2, case)
}

fn negated(alloc: Global) -> Result<Nodes, Memory> {
    let atom = atom(alloc, Q)?;
    let covers = one_cover(alloc)?;
    nodes(alloc, Node::Neg { atom, covers })
}

fn even_loop(alloc: Global) -> Result<Cert, Memory> {
    let mut cert = fact(alloc, negated(alloc)?)?;
    cert.map = map_of(alloc, &[(P, 0, true), (Q, 0, false)])?;
    Ok(cert)
}

/// The variables and summands of each row, its constant, and how it compares with 0.
const ROWS: [(&[(u64, i128)], i128, Op); 5] = [
    (&[(0, 4), (1, 3)], -1, Op::Eq),
    (&[(0, 5), (1, -1)], -2, Op::Eq),
    (&[(0, -1)], 3, Op::Lt),
    (&[(0, 1), (1, -1)], 0, Op::Le),
    (&[], 1, Op::Ne),
];

fn put_rows(alloc: Global, cert: &mut Cert) -> Result<(), Fail> {
    for var in 0..2u64 {
        cert.terms.push(Term::Var(var))?;
        cert.given.push(Con::Num(Term::Var(var)))?;
    }
    for (summands, constant, op) in ROWS {
        cert.given
            .push(Con::Row(row_of(alloc, summands, constant, op)?))?;
    }
    Ok(())
}

fn put_sample(cert: &mut Cert) -> Result<(), Fail> {
    cert.sample.push(Term::Num(Rat::new(7, 19)?))?;
    cert.sample.push(Term::Num(Rat::new(-3, 19)?))?;
    Ok(())
}

fn numbers(alloc: Global) -> Result<Cert, Fail> {
    let mut cert = fact(alloc, Nodes::new(alloc))?;
    put_rows(alloc, &mut cert)?;
    put_sample(&mut cert)?;
    Ok(cert)
}

/// The list `[p,q|V1]`.
fn open_list(alloc: Global) -> Result<Term, Memory> {
    let rest = pair(alloc, constant(alloc, Q), Term::Var(1))?;
    pair(alloc, constant(alloc, P), rest)
}

fn nil(alloc: Global) -> Term {
    Term::App(NIL, Terms::new(alloc))
}

fn push_lists(alloc: Global, list: &mut Terms) -> Result<(), Memory> {
    list.push(Term::Var(0))?;
    list.push(open_list(alloc)?)?;
    list.push(pair(alloc, constant(alloc, P), nil(alloc))?)
}

fn push_names(alloc: Global, list: &mut Terms) -> Result<(), Memory> {
    list.push(constant(alloc, R))?;
    list.push(constant(alloc, T))
}

fn push_constraints(given: &mut Cons) -> Result<(), Memory> {
    given.push(Con::NotShape(0, NameId::new(P.place), 0))?;
    given.push(Con::NotShape(1, NameId::new(S.place), 2))?;
    given.push(Con::Num(Term::Var(0)))
}

const STEP: Step = Step {
    a: 1,
    p: 2,
    b: -3,
    q: 4,
};

fn void(alloc: Global) -> Result<Case, Memory> {
    let hint = Hint::Rows(one(alloc, STEP)?);
    Ok(Case::Void { hint })
}

fn leaf(alloc: Global) -> Result<Case, Memory> {
    let lit = literal(alloc, (false, Q))?;
    let children = nodes(alloc, Node::Seen { lit, at: 5 })?;
    Ok(Case::Leaf { item: 2, children })
}

fn boxed_leaf(alloc: Global) -> Result<Box<Case>, Memory> {
    boxed(alloc, leaf(alloc)?)
}

fn split(alloc: Global) -> Result<Case, Memory> {
    let first = boxed(alloc, void(alloc)?)?;
    Ok(Case::Split {
        con: Con::Neq(Term::Var(0), constant(alloc, Q)),
        first,
        second: boxed_leaf(alloc)?,
    })
}

fn head(alloc: Global) -> Result<Case, Memory> {
    let children = looped(alloc, (false, Q))?;
    Ok(Case::Head { children })
}

fn push_covers(alloc: Global, covers: &mut Covers) -> Result<(), Memory> {
    let case = split(alloc)?;
    covers.push(Cover { rule: 4, case })?;
    let case = head(alloc)?;
    covers.push(Cover { rule: 5, case })
}

fn all_covers(alloc: Global) -> Result<Covers, Memory> {
    let mut covers = Covers::new(alloc);
    push_covers(alloc, &mut covers)?;
    Ok(covers)
}

const OTHER: Step = Step {
    a: -1,
    p: 5,
    b: 6,
    q: 7,
};

fn two_steps(alloc: Global) -> Result<Steps, Memory> {
    let mut two = one(alloc, STEP)?;
    two.push(OTHER)?;
    Ok(two)
}

fn step_lists(alloc: Global) -> Result<StepLists, Memory> {
    let mut lists = one(alloc, one(alloc, STEP)?)?;
    lists.push(two_steps(alloc)?)?;
    Ok(lists)
}

fn test(alloc: Global) -> Node {
    Node::Test {
        con: Con::Eq(Term::Var(0), constant(alloc, P)),
        hint: Hint::Terms,
    }
}

/// A line for `-q`.
fn line_of_minus(alloc: Global) -> Result<Node, Memory> {
    let covers = all_covers(alloc)?;
    let mut atom = atom(alloc, Q)?;
    atom.minus = true;
    Ok(Node::Neg { atom, covers })
}

/// A test, and a line for `-q`.
fn lines_below(alloc: Global) -> Result<Nodes, Memory> {
    let mut children = nodes(alloc, test(alloc))?;
    children.push(line_of_minus(alloc)?)?;
    Ok(children)
}

/// The atom `p(V0,p)`.
fn binary(alloc: Global) -> Result<Atom, Memory> {
    let mut atom = atom(alloc, P)?;
    atom.args.push(Term::Var(0))?;
    atom.args.push(constant(alloc, P))?;
    Ok(atom)
}

fn line_of_all(alloc: Global) -> Result<Node, Memory> {
    let children = lines_below(alloc)?;
    let atom = binary(alloc)?;
    Ok(Node::Pos {
        atom,
        rule: 3,
        terms: terms(alloc, Term::Var(0))?,
        children,
    })
}

fn put_terms(alloc: Global, cert: &mut Cert) -> Result<(), Memory> {
    push_lists(alloc, &mut cert.terms)?;
    push_names(alloc, &mut cert.terms)?;
    push_constraints(&mut cert.given)?;
    cert.sample.push(constant(alloc, P))?;
    cert.sample.push(nil(alloc))
}

fn entry() -> PredMap {
    let minus = true;
    PredMap {
        pred: Pred { minus, ..pred(Q) },
        level: 1,
        plus: false,
    }
}

fn put_checks(alloc: Global, cert: &mut Cert) -> Result<(), Memory> {
    let hint = Hint::Same(1, step_lists(alloc)?);
    let case = Case::Void { hint };
    cert.checks.push(Check { clause: 6, case })?;
    cert.clashes.push(Clash {
        first: 1,
        second: 3,
        hint: Hint::Terms,
    })?;
    cert.map.push(entry())
}

fn all_forms(alloc: Global) -> Result<Cert, Memory> {
    let mut cert = certificate(alloc, nodes(alloc, line_of_all(alloc)?)?);
    cert.query = 2;
    put_terms(alloc, &mut cert)?;
    put_checks(alloc, &mut cert)?;
    Ok(cert)
}

fn test_block(
    rt: &impl Abort,
    alloc: Global,
    names: &Names,
    cert: &Cert,
    block: &str,
) -> Result<(), Fail> {
    let text = print_cert(alloc, names, cert, 1)?;
    assert!(rt; text.as_slice() == block.as_bytes());
    Ok(())
}

#[test]
fn certificates_are_written(rt: HostRuntime) -> Result<(), Fail> {
    let alloc = rt.alloc();
    let names = table(alloc, RandomState::new(&rt)?)?;
    test_block(&rt, alloc, &names, &fact(alloc, Nodes::new(alloc))?, FACT)?;
    test_block(&rt, alloc, &names, &even_loop(alloc)?, EVEN_LOOP)?;
    test_block(&rt, alloc, &names, &all_forms(alloc)?, ALL_FORMS)?;
    test_block(&rt, alloc, &names, &numbers(alloc)?, NUMBERS)?;
    Ok(())
}
