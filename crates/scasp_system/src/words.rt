//! The words of a command.
ghost use Rattle.std.specs.Prelude.{◌≡◌, drop, IfOk};
ghost use Rattle.std.specs.Vec.Iter.{into_iter_items};

use std::alloc::{AllocError, Global};
use std::env::Args;

/// The words behind the program's name, which is the first argument.
pub fn command_words(alloc: Global, mut arguments: Args) -> Result<Vec<String>, AllocError>
    ensures { IfOk result (λ words. words.items ≡ drop 1 (into_iter_items arguments)) }
{
    let mut words = Vec::new(alloc);
    let _name = arguments.next();
    for word in arguments {
        words.push(word)?;
    }
    Ok(words)
}
