//! Comments.
ghost use Rattle.std.specs.Prelude.{◌≡◌, ◌<◌, ◌≤◌, true, length, slice_index, IfSome};
ghost use Rattle.scasp_reader_tokens.specs.Bytes.{is_of_line};
ghost use Rattle.scasp_reader_tokens.specs.Comments.{line_length, block_length};

use crate::bytes::behind;

/// The number of bytes up to the end of the line.
pub fn line_len(bytes: &[u8]) -> usize
    ensures length { result ≡ line_length bytes.now }
    ensures within { result ≤ length bytes.now }
    ensures some { 0 < length bytes.now → is_of_line (slice_index bytes.now 0) ≡ true → 0 < result }
{
    bytes.iter().take_while(|b| **b != b'\n').count()
}

/// The number of bytes of the comment that begins here with `/*`, where it has an end.
pub fn block_len(bytes: &[u8]) -> Option<usize>
    ensures length { result ≡ block_length bytes.now }
    ensures some { IfSome result (λ n. 0 < n) }
    ensures within { IfSome result (λ n. n ≤ length bytes.now) }
{
    let mut at = 2;
    while at < bytes.len() {
        let rest = behind(bytes, at);
        if rest.starts_with(b"*/") {
            return Some(at + 2);
        }
        at += 1;
    }
    None
}
