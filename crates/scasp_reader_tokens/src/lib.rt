//! The tokens of a program's text.
#![tactic(auto)]

mod bytes;
mod comments;
mod directives;
mod front;
mod lexer;
mod numbers;
mod quoted;
mod sign;
mod text;
mod token;

pub use lexer::tokens;
pub use sign::Sign;
pub use text::Text;
pub use token::{Placed, Token, Tokens};
