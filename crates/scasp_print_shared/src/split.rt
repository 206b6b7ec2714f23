//! Lines of bytes.
ghost use Rattle.std.specs.Prelude.{◌≡◌, ◌+◌, ◌^◌, ◌<◌, ◌≤◌, length, map, IfOk, IfSome};
ghost use Rattle.scasp_copies.specs.Pieces as spec;
ghost use Rattle.scasp_print_shared.specs.Inside.Lines.{Splits, read, read_all};

use crate::lines::Line;
use memchr::memchr;
use scasp_name::Memory;
use std::alloc::Global;

/// Lines, and the bytes behind the last line feed.
#[derive(Drop)]
pub(crate) struct Split<'a> {
    pub(crate) lines: Vec<Line<'a>>,
    pub(crate) rest: &'a [u8],
}

/// The number of bytes before the first line feed, where there is one.
fn line_len(bytes: &[u8]) -> Option<usize>
    ensures within { IfSome result (λ len. len < length bytes.now) }
    ensures room { IfSome result (λ len. len + 1 < 2 ^ 64) }
    ensures splits { Splits bytes.now result }
{
    memchr(b'\n', bytes)
}

/// The number of blanks at the front.
fn indent(line: &[u8]) -> usize
    ensures count { result ≡ spec.indent line.now }
    ensures within { result ≤ length line.now }
{
    line.iter().take_while(|b| **b == b' ').count()
}

/// The line of these bytes.
fn line_of(bytes: &[u8]) -> Line<'_>
    ensures { read result ≡ spec.piece_of bytes.now }
{
    let depth = indent(bytes);
    Line {
        depth,
        words: &bytes[depth..],
    }
}

/// The lines of a text.
pub(crate) fn split_lines(alloc: Global, text: &[u8]) -> Result<Split<'_>, Memory>
    ensures lines { IfOk result (λ split. read_all split.lines.items ≡ map spec.piece_of (spec.split_lines text.now).lines) }
    ensures rest { IfOk result (λ split. split.rest.now ≡ (spec.split_lines text.now).rest) }
{
    let mut lines = Vec::new(alloc);
    let mut rest = text;
    while let Some(len) = line_len(rest) {
        lines.push(line_of(&rest[..len]))?;
        rest = &rest[len + 1..];
    }
    Ok(Split { lines, rest })
}
