//! All tokens of a text.
ghost use Rattle.std.specs.Prelude.{◌≡◌, IfOk};
ghost use Rattle.scasp_reader_tokens.specs.Tokens.{tokens_of};

use crate::bytes::behind;
use crate::front::front;
use crate::token::{Front, Placed, Tokens};
use scasp_list::Memory;
use std::alloc::Global;

/// The tokens of the bytes, with their places. The last one, and only it, is [`Token::End`](crate::Token::End) or
/// the first that no program has: a bad byte, something without its end, or a directive that is refused.
pub fn tokens(alloc: Global, bytes: &[u8]) -> Result<Tokens, Memory>
    ensures { IfOk result (λ tokens. tokens ≡ tokens_of bytes.now) }
{
    let mut tokens = Tokens::new(alloc);
    let mut at = 0;
    'text: loop {
        match front(alloc, behind(bytes, at))? {
            Front::Gap(len) => at += len,
            Front::Found(token, len) => {
                let place = at as u64;
                tokens.push(Placed { at: place, token })?;
                at += len;
            }
            Front::Last(token, len) => {
                let place = (at + len) as u64;
                tokens.push(Placed { at: place, token })?;
                return Ok(tokens);
            }
        }
    }
}
