//! Directives.
ghost use Rattle.std.specs.Prelude.{◌≡◌, ◌<◌, ◌≤◌, length, IfSome};
ghost use Rattle.scasp_reader_tokens.specs.Directives.{begins_directive, is_skipped_name, is_abducible_name, is_last_stop, piece_length, length_to_stop};

use crate::bytes::{behind, is_blank, is_lower};
use crate::comments::{block_len, line_len};
use crate::quoted::quoted_len;

/// Whether a name stands behind a `#`.
pub fn begins_directive(bytes: &[u8]) -> bool
    ensures { result ≡ begins_directive bytes.now }
{
    match bytes {
        [b'#', first, ..] => is_lower(*first) || *first == b'\'',
        _ => false,
    }
}

/// Whether a directive of this name is skipped.
pub fn is_skipped_name(name: &str) -> bool
    ensures { result ≡ is_skipped_name name.now }
{
    matches!(name, "show" | "pred")
}

/// Whether it is the name of the directive before a predicate that may be assumed.
pub fn is_abducible_name(name: &str) -> bool
    ensures { result ≡ is_abducible_name name.now }
{
    name == "abducible"
}

/// Whether a stop is here that ends a directive.
fn is_last_stop(bytes: &[u8]) -> bool
    ensures { result ≡ is_last_stop bytes.now }
{
    match bytes {
        [b'.'] => true,
        [b'.', next, ..] => is_blank(*next) || *next == b'%',
        _ => false,
    }
}

/// The number of bytes of a comment, a quoted name, or one other byte, where it has an end.
fn piece_len(bytes: &[u8]) -> Option<usize>
    requires { 0 < length bytes.now }
    ensures length { result ≡ piece_length bytes.now }
    ensures some { IfSome result (λ n. 0 < n) }
    ensures within { IfSome result (λ n. n ≤ length bytes.now) }
{
    match bytes {
        [b'%', ..] => Some(line_len(bytes)),
        [b'/', b'*', ..] => block_len(bytes),
        [b'\'', rest @ ..] => Some(quoted_len(rest)? + 2),
        _ => Some(1),
    }
}

/// The number of bytes up to the stop of a directive, and with it, where there is one.
pub fn len_to_stop(bytes: &[u8]) -> Option<usize>
    ensures length { result ≡ length_to_stop 0 bytes.now }
    ensures within { IfSome result (λ n. n ≤ length bytes.now) }
{
    let mut at = 0;
    while at < bytes.len() {
        let rest = behind(bytes, at);
        if is_last_stop(rest) {
            return Some(at + 1);
        }
        at += piece_len(rest)?;
    }
    None
}
