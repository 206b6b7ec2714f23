//! Lists that share what is behind their first item.
ghost use Rattle.std.specs.Prelude.{◌≡◌, ◌+◌, [], ◌∷◌, length, map, IfOk, MatchOption};
ghost use Rattle.scasp_lines_places.specs.Places.Chains.{behind, chained, linked};

use scasp_list::Memory;
use std::alloc::Global;
use std::rc::Rc;

/// A list, the innermost item first. A copy shares all items with it, and so does a longer one that it is the rest of.
#[cycle(chain)]
pub struct Chain<T> {
    first: Option<Rc<Link<T>>>,
}

/// An item, with those outside of it.
#[cycle(chain)]
struct Link<T> {
    item: T,
    outer: Chain<T>,
}

impl<T: Drop> Drop for Link<T> {
    fn drop(self) {
        let Link {
            item: _item,
            outer: _outer,
        } = self;
    }
}

impl<T: Drop> Link<T> {
    /// The items outside of this one.
    fn into_outer(self) -> Chain<T>
        ensures { length (linked self) ≡ length (chained result) + 1 }
    {
        let Link { item: _item, outer } = self;
        outer
    }
}

impl<T: Drop> Drop for Chain<T> {
    /// It takes no machine stack, however long the list is.
    fn drop(mut self) {
        loop {
            let Chain { first } = self;
            match first {
                None => return,
                Some(link) => match Rc::into_inner(link) {
                    None => return,
                    Some(link) => self = link.into_outer(),
                },
            }
        }
    }
}

impl<T: Drop> Chain<T> {
    /// The empty list, which takes no memory.
    pub fn new() -> Chain<T>
        ensures { chained result ≡ [] }
    {
        Chain { first: None }
    }

    /// The same list. It takes no memory; it fails only where there are as many owners as can be counted.
    pub fn share(&self) -> Result<Chain<T>, Memory>
        ensures { IfOk result (λ made. chained made ≡ chained self.now) }
    {
        match &self.first {
            None => Ok(Chain { first: None }),
            Some(link) => Ok(Chain {
                first: Some(link.clone()?),
            }),
        }
    }

    /// The list with one item more in front.
    pub fn with(&self, alloc: Global, item: T) -> Result<Chain<T>, Memory>
        ensures { IfOk result (λ made. chained made ≡ item ∷ chained self.now) }
    {
        let outer = self.share()?;
        let first = Rc::new(alloc, Link { item, outer })?;
        Ok(Chain { first: Some(first) })
    }

    /// The innermost item, and those outside of it.
    pub fn first(&self) -> Option<(&T, &Chain<T>)>
        ensures { MatchOption result (chained self.now ≡ []) (λ p. chained self.now ≡ p.0.now ∷ chained p.1.now) }
    {
        match &self.first {
            None => None,
            Some(link) => {
                let link: &Link<T> = link.as_ref();
                Some((&link.item, &link.outer))
            }
        }
    }

    /// The items, the innermost first.
    pub fn items(&self, alloc: Global) -> Result<Vec<&T>, Memory>
        ensures { IfOk result (λ all. map behind all.items ≡ chained self.now) }
    {
        let mut all = Vec::new(alloc);
        let mut rest = self;
        while let Some((item, outer)) = rest.first() {
            all.push(item)?;
            rest = outer;
        }
        Ok(all)
    }
}
