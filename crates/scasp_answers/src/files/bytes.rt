//! Lines of bytes.
ghost use Rattle.std.specs.Prelude.{◌≡◌, ◌+◌, ◌^◌, ◌<◌, ◌≤◌, ◌==◌, not, length, IfSome};
ghost use Rattle.std.specs.List.{prefix_len};
ghost use Rattle.scasp_answers.specs.Blocks.Files as spec;
ghost use Rattle.scasp_answers.specs.Files.Inside.{Splits};

/// The number of bytes before the first line feed.
fn bytes_before_feed(bytes: &[u8]) -> usize
    ensures { result ≡ prefix_len (λ b. not (b == 10)) bytes.now }
{
    bytes.iter().take_while(|b| **b != b'\n').count()
}

/// The number of bytes before the first line feed, where there is one.
pub fn line_len(bytes: &[u8]) -> Option<usize>
    ensures within { IfSome result (λ len. len < length bytes.now) }
    ensures room { IfSome result (λ len. len + 1 < 2 ^ 64) }
    ensures splits { Splits bytes.now result }
{
    let len = bytes_before_feed(bytes);
    if len < bytes.len() { Some(len) } else { None }
}

/// The number of blanks at the front.
pub fn indent(line: &[u8]) -> usize
    ensures count { result ≡ spec.indent line.now }
    ensures within { result ≤ length line.now }
{
    line.iter().take_while(|b| **b == b' ').count()
}

/// Whether the line is a remark.
pub fn is_remark(line: &[u8]) -> bool
    ensures { result ≡ spec.is_remark line.now }
{
    match line {
        [] => false,
        [first, ..] => *first == b'%',
    }
}
