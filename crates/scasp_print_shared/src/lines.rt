//! The lines of a block.
ghost use Rattle.std.specs.Prelude.{◌≡◌, ◌≤◌, length, not};
ghost use Rattle.std.specs.List.{prefix_len};
ghost use Rattle.scasp_copies.specs.Copies.{is_call};
ghost use Rattle.scasp_print_shared.specs.Inside.Lines.{read, read_all, behind_tree};
ghost use Rattle.scasp_print_shared.specs.Shared as spec;

use crate::words::begins;

/// A line without its line feed: its words stand behind so many blanks.
#[derive(Clone, Copy)]
pub(crate) struct Line<'a> {
    pub(crate) depth: usize,
    pub(crate) words: &'a [u8],
}

/// Whether rules or cases explain the line.
pub(crate) fn is_call(line: Line<'_>) -> bool
    ensures { result ≡ is_call (read line.entry) }
{
    begins(line.words, b"pos ") || begins(line.words, b"neg ")
}

/// Whether the numbered lines stand behind the line.
fn is_tree(line: Line<'_>) -> bool
    ensures { result ≡ spec.is_tree (read line.entry) }
{
    line.depth == 0 && line.words == b"tree".as_slice()
}

/// Whether the line stands behind the last numbered line.
fn is_behind(line: Line<'_>) -> bool
    ensures { result ≡ spec.is_behind (read line.entry) }
{
    line.depth == 0
        && (begins(line.words, b"clash ")
            || begins(line.words, b"map ")
            || line.words == b"end".as_slice())
}

/// The number of lines up to and with the line `tree`.
pub(crate) fn behind_tree(lines: &[Line<'_>]) -> usize
    ensures count { result ≡ behind_tree (read_all lines.now) }
    ensures within { result ≤ length lines.now }
{
    for (k, line) in lines.iter().enumerate() {
        if is_tree(*line) {
            return k + 1;
        }
    }
    lines.len()
}

/// The number of lines before the first that stands behind the numbered ones.
pub(crate) fn count_numbered(lines: &[Line<'_>]) -> usize
    ensures count { result ≡ prefix_len (λ p. not (spec.is_behind p)) (read_all lines.now) }
    ensures within { result ≤ length lines.now }
{
    for (k, line) in lines.iter().enumerate() {
        if is_behind(*line) {
            return k;
        }
    }
    lines.len()
}
