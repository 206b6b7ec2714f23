//! The trial program.
ghost use Rattle.std.specs.Prelude.{◌≡◌, ◌++◌, IfOk, OnOk};
ghost use Rattle.scasp_gen.specs.Trial.{ended, nodes_from, trial_text};

use scasp_list::Memory;
use scasp_print_words::{put, put_number};
use std::alloc::Global;

/// The clauses behind the nodes. Each node is in or out, by an even loop over negation, and `all(K)` asks that the
/// nodes 1 to K be in.
const CLAUSES: &str =
    "in(X) :- node(X), not out(X).\nout(X) :- node(X), not in(X).\nall(0).\nall(K) :- K #> 0, in(K), J #= K-1, all(J).\n";

/// The text of the trial program of `n`: the nodes 1 to `n`, the clauses, and the query whether all nodes can be in.
pub fn trial_program(alloc: Global, n: u32) -> Result<Vec<u8>, Memory>
    ensures { IfOk result (λ text. text.items ≡ trial_text n) }
{
    let mut out = Vec::new(alloc);
    put_nodes(&mut out, n)?;
    put(&mut out, CLAUSES)?;
    put_with_number(&mut out, "?- all(", n)?;
    Ok(out)
}

/// Puts the facts for the nodes 1 to `n` at the end.
fn put_nodes(out: &mut Vec<u8>, n: u32) -> Result<(), Memory>
    ensures { OnOk result (out.new.items ≡ out.old.items ++ nodes_from 1 n) }
{
    for k in 0..n {
        put_with_number(out, "node(", k + 1)?;
    }
    Ok(())
}

/// Puts the text, the number, and what ends the clause at the end.
fn put_with_number(out: &mut Vec<u8>, text: &str, number: u32) -> Result<(), Memory>
    ensures { OnOk result (out.new.items ≡ out.old.items ++ ended text.now number) }
{
    put(out, text)?;
    put_number(out, number as u64)?;
    put(out, ").\n")
}
