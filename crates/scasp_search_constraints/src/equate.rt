//! Terms that are to be equal, as tasks.
ghost use Rattle.std.specs.Prelude.{◌≡◌, IfOk};
ghost use Rattle.scasp_search_rules.specs.Successors.Equations.{equations, equations_of};

use scasp_list::Memory;
use scasp_search_rules::{Pair, Pairs, Task, Tasks};
use scasp_search_terms::pairs::pairs;
use scasp_syntax::Terms;
use std::alloc::Global;

fn equation(pair: Pair) -> Task
    ensures { result ≡ Task.Equate pair.left pair.right }
{
    let Pair { left, right } = pair;
    Task::Equate(left, right)
}

/// The pairs as equations.
fn equations_of(alloc: Global, pairs: Pairs) -> Result<Tasks, Memory>
    ensures { IfOk result (λ tasks. tasks ≡ equations_of pairs) }
{
    let mut tasks = Tasks::new(alloc);
    for pair in pairs.into_vec() {
        tasks.push(equation(pair))?;
    }
    Ok(tasks)
}

/// The arguments of two lists, as equations.
pub fn equations(alloc: Global, left: &Terms, right: &Terms) -> Result<Tasks, Memory>
    ensures { IfOk result (λ tasks. tasks ≡ equations left.now right.now) }
{
    equations_of(alloc, pairs(alloc, left, right)?)
}
