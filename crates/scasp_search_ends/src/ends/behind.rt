//! Literals behind a place, found by their predicate, their sign and their first argument.
ghost use Rattle.std.specs.Prelude.{◌≡◌, ◌∷◌, Bool, IfOk, OnOk, List, if◌then◌else◌, map};
ghost use Rattle.scasp_checker_rules.specs.Told.{Told};
ghost use Rattle.scasp_lines_places.specs.Places.Chains.{chained};
ghost use Rattle.scasp_lines_walk.specs.Shown.TableView.{told_of};
ghost use Rattle.scasp_search_ends.specs.Ends.Inside.Behind.{Finds, key_of, mark, own_key, same_key, term_mark, told_in, told_under};
ghost use Rattle.scasp_search_ends.specs.declared.ends.behind.Key.{Key as ThisKey};
ghost use Rattle.scasp_syntax.specs.View.{tm_of};

use scasp_lines_places::Chain;
use scasp_lines_walk::Saying;
use scasp_list::Memory;
use scasp_syntax::{Pred, Term, Terms};
use std::alloc::Global;
use std::collections::HashMap;

/// Which literals of a predicate and a sign are looked for.
#[derive(Clone, Copy, Debug, PartialEq, Eq, Hash)]
pub(crate) enum Sought {
    /// All of them.
    All,
    /// Those whose first argument is a variable.
    Open,
    /// Those whose first argument has this mark.
    Marked(u128),
}

/// What literals are found by.
#[derive(Clone, Copy, Debug, PartialEq, Eq, Hash)]
pub(crate) struct Key {
    pub pred: Pred,
    pub positive: bool,
    pub sought: Sought,
}

/// The literals behind a place. Each is found among all of its predicate and sign, and by its first argument.
pub(crate) type Behind<'a> = HashMap<Key, Chain<&'a Saying>>;

/// The mark of the term: two terms with different marks differ by a name or a number. A variable has none.
fn term_mark(term: &Term) -> Option<u128>
    ensures { result ≡ term_mark (tm_of term.now) }
{
    match term {
        Term::Var(_) => None,
        Term::Num(value) => Some(value.num().unsigned_abs()),
        Term::App(name, _) => Some(name.place() as u128),
    }
}

/// The mark of the first argument; where there is none, the same for all.
pub(crate) fn mark(args: &Terms) -> Option<u128>
    ensures { result ≡ mark args.now }
{
    match args.as_slice().split_first() {
        None => Some(0),
        Some((first, _)) => term_mark(first),
    }
}

/// The key for literals of the predicate of this one.
pub(crate) fn key_of(saying: &Saying, positive: bool, sought: Sought) -> Key
    ensures { result ≡ key_of (told_of saying.now) positive sought }
{
    Key {
        pred: saying.atom.pred(),
        positive,
        sought,
    }
}

/// The key under which the literal is found by its first argument.
fn own_key(saying: &Saying) -> Key
    ensures { result ≡ own_key (told_of saying.now) }
{
    match mark(&saying.atom.args) {
        None => key_of(saying, saying.positive, Sought::Open),
        Some(mark) => key_of(saying, saying.positive, Sought::Marked(mark)),
    }
}

/// Those that are found under the key.
pub(crate) fn found_under<'a>(behind: &Behind<'a>, key: &Key) -> Result<Chain<&'a Saying>, Memory>
    ensures { IfOk result (λ made. told_in made ≡ told_under behind.now key.now) }
{
    match behind.get(key) {
        Some(chain) => chain.share(),
        None => Ok(Chain::new()),
    }
}

/// Puts the literal before those that are found under the key.
fn put_under<'a>(
    alloc: Global,
    behind: &mut Behind<'a>,
    key: &Key,
    saying: &'a Saying,
) -> Result<(), Memory>
    ensures { OnOk result ((k : ThisKey) → told_under behind.new k ≡ (if same_key key.now k then told_of saying.now ∷ told_under behind.old k else told_under behind.old k)) }
{
    let chain = found_under(behind, key)?;
    let longer = chain.with(alloc, saying)?;
    behind.insert(*key, longer)?;
    Ok(())
}

/// Puts the literal before those that are found.
pub(crate) fn put_before<'a>(
    alloc: Global,
    behind: &mut Behind<'a>,
    saying: &'a Saying,
) -> Result<(), Memory>
    ensures { (ts : List Told) → Finds behind.old ts → OnOk result (Finds behind.new (told_of saying.now ∷ ts)) }
{
    let all = key_of(saying, saying.positive, Sought::All);
    put_under(alloc, behind, &all, saying)?;
    let own = own_key(saying);
    put_under(alloc, behind, &own, saying)?;
    Ok(())
}

/// The items of a chain, in order.
pub(crate) fn items_in<T: Drop>(alloc: Global, chain: &Chain<T>) -> Result<Vec<&T>, Memory>
    ensures { IfOk result (λ made. map (λ b. b.now) made.items ≡ chained chain.now) }
{
    let mut all = Vec::new(alloc);
    let mut rest = chain;
    while let Some((item, outer)) = rest.first() {
        all.push(item)?;
        rest = outer;
    }
    Ok(all)
}
