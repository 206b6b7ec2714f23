//! Bindings one by one.
ghost use Rattle.std.specs.Prelude.{◌≡◌, ◌++◌, map, IfOk, OnOk};
ghost use Rattle.scasp_bound.specs.Bounds.{equation};
ghost use Rattle.scasp_bound.specs.Inside.Gaps.{present};

use scasp_list::{Memory, Sequence};
use scasp_syntax::{Con, Cons, DeepCopy, Term};
use scasp_unify::Binding;
use std::alloc::Global;

fn copy_of(alloc: Global, binding: &Binding) -> Result<Binding, Memory>
    ensures { IfOk result (λ made. made ≡ binding.now) }
{
    Ok(Binding {
        x: binding.x,
        term: binding.term.copy(alloc)?,
    })
}

/// Copies of the bindings, in order.
pub(crate) fn copies(alloc: Global, items: &[Option<Binding>]) -> Result<Sequence<Binding>, Memory>
    ensures { IfOk result (λ made. made ≡ present items.now) }
{
    let mut made = Sequence::new(alloc);
    'items: for item in items {
        if let Some(binding) = item {
            made.push(copy_of(alloc, binding)?)?;
        }
    }
    Ok(made)
}

/// The binding as an equation.
fn equation(alloc: Global, binding: &Binding) -> Result<Con, Memory>
    ensures { IfOk result (λ made. made ≡ equation binding.now) }
{
    Ok(Con::Eq(Term::Var(binding.x), binding.term.copy(alloc)?))
}

/// Puts the bindings, as equations, behind the constraints of a list.
pub(crate) fn push_equations(
    alloc: Global,
    items: &[Option<Binding>],
    list: &mut Cons,
) -> Result<(), Memory>
    ensures { OnOk result (list.new ≡ list.old ++ map equation (present items.now)) }
{
    'items: for item in items {
        if let Some(binding) = item {
            list.push(equation(alloc, binding)?)?;
        }
    }
    Ok(())
}
