//! Each literal with those behind it that it makes a pair with.
ghost use Rattle.std.specs.Prelude.{◌≡◌, Bool, IfOk, OnOk, map, reverse};
ghost use Rattle.scasp_lines_places.specs.Places.Chains.{chained};
ghost use Rattle.scasp_lines_walk.specs.Shown.TableView.{told_from, told_of};
ghost use Rattle.scasp_syntax.specs.declared.atom.Pred.{Pred as ThisPred};
ghost use Rattle.scasp_checker.specs.Partners.Partners.{behind_of, grouped, group_of, has_first, told_in};

use scasp_lines_places::Chain;
use scasp_lines_walk::Saying;
use scasp_list::Memory;
use scasp_syntax::Pred;
use std::alloc::Global;
use std::collections::HashMap;

/// A literal with those behind it that have the other sign and its predicate, in order.
#[derive(Drop)]
pub struct Partners<'a> {
    pub first: &'a Saying,
    pub behind: Chain<&'a Saying>,
}

/// The literals behind a place, by their predicate and sign.
type Behind<'a> = HashMap<(Pred, bool), Chain<&'a Saying>>;

/// Those of this predicate and sign.
fn behind_with<'a>(
    behind: &Behind<'a>,
    pred: Pred,
    positive: bool,
) -> Result<Chain<&'a Saying>, Memory>
    ensures { IfOk result (λ made. told_in made ≡ behind_of behind.now pred positive) }
{
    match behind.get(&(pred, positive)) {
        Some(chain) => chain.share(),
        None => Ok(Chain::new()),
    }
}

/// Puts the literal before those of its predicate and sign.
fn put_before<'a>(alloc: Global, behind: &mut Behind<'a>, saying: &'a Saying) -> Result<(), Memory>
    ensures { OnOk result ((p : ThisPred) (s : Bool) → behind_of behind.new p s ≡ has_first (told_of saying.now) p s (behind_of behind.old p s)) }
{
    let chain = behind_with(behind, saying.atom.pred(), saying.positive)?;
    let longer = chain.with(alloc, saying)?;
    behind.insert((saying.atom.pred(), saying.positive), longer)?;
    Ok(())
}

/// Each literal with its partners, the last literal first. It takes time linear in the literals.
pub fn partners_of<'a>(
    alloc: Global,
    mut left: Vec<&'a Saying>,
) -> Result<Vec<Partners<'a>>, Memory>
    ensures { IfOk result (λ made. map group_of (reverse made.items) ≡ grouped (map told_from left.entry.items)) }
{
    let mut behind: Behind<'a> = HashMap::new(alloc);
    let mut all = Vec::new(alloc);
    while let Some(saying) = left.pop() {
        let partners = behind_with(&behind, saying.atom.pred(), !saying.positive)?;
        all.push(Partners {
            first: saying,
            behind: partners,
        })?;
        put_before(alloc, &mut behind, saying)?;
    }
    Ok(all)
}

/// The items of a chain, in order. It takes time linear in them.
pub fn items_in<T: Drop>(alloc: Global, chain: &Chain<T>) -> Result<Vec<&T>, Memory>
    ensures { IfOk result (λ made. map (λ b. b.now) made.items ≡ chained chain.now) }
{
    let mut all = Vec::new(alloc);
    let mut rest = chain;
    while let Some((item, outer)) = rest.first() {
        all.push(item)?;
        rest = outer;
    }
    Ok(all)
}
