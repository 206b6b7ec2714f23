//! What is kept of a variable, found by its mentions.
ghost use Rattle.std.specs.Prelude.{◌≡◌, filter, IfOk};
ghost use Rattle.std.specs.List.{list_any};
ghost use Rattle.scasp_diseq.specs.Inside.Indexed.{IsIndexed, cons_of, is_shape as is_this_shape};
ghost use Rattle.scasp_diseq.specs.Pending.{is_pending_on};

use crate::mentions::Mentions;
use crate::posted::{Posted, is_disequation, is_shape};
use scasp_cells::Cells;
use scasp_list::Memory;
use scasp_name::NameId;
use scasp_syntax::{Cons, DeepCopy};
use std::alloc::Global;

/// Whether the shape of the variable is excluded. It takes no memory.
pub(crate) fn is_excluded(
    posted: &Cells<Posted>,
    mentions: &Mentions,
    x: u64,
    name: NameId,
    arity: u64,
) -> bool
    requires { IsIndexed posted.now.items mentions.now }
    ensures { result ≡ list_any (is_this_shape x name arity) (cons_of posted.now.items) }
{
    let mut next = mentions.latest(x);
    while let Some(at) = next {
        let mention = mentions.get(at);
        if is_shape(&posted.get(mention.place).con, x, name, arity) {
            return true;
        }
        next = mention.before;
    }
    false
}

/// The disequations in which the variable stands, in order.
pub(crate) fn woken(
    alloc: Global,
    posted: &Cells<Posted>,
    mentions: &Mentions,
    x: u64,
) -> Result<Cons, Memory>
    requires { IsIndexed posted.now.items mentions.now }
    ensures { IfOk result (λ made. made ≡ filter (is_pending_on x) (cons_of posted.now.items)) }
{
    let mut places = mentions.places(alloc, x)?;
    let mut made = Cons::new(alloc);
    while let Some(place) = places.pop() {
        let con = &posted.get(place).con;
        if is_disequation(con) {
            made.push(con.copy(alloc)?)?;
        }
    }
    Ok(made)
}
