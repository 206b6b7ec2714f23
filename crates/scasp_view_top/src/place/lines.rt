//! The line in which a place stands.
ghost use Rattle.std.specs.Prelude.{◌≡◌};
ghost use Rattle.std.specs.List.{prefix_len, suffix_len};
ghost use Rattle.scasp_view_top.specs.Place.Places as spec;

/// The number of the line behind the bytes, from 1.
pub(crate) fn line_number(before: &[u8]) -> u64
    ensures { result ≡ spec.line_number before.now }
{
    let feeds = before.iter().filter(|byte| **byte == b'\n').count();
    (feeds as u64).saturating_add(1)
}

/// How many bytes stand in front of the first line feed.
fn count_before_feed(bytes: &[u8]) -> usize
    ensures { result ≡ prefix_len spec.is_inside bytes.now }
{
    bytes.iter().take_while(|byte| **byte != b'\n').count()
}

/// How many bytes stand behind the last line feed.
fn count_behind_feed(bytes: &[u8]) -> usize
    ensures { result ≡ suffix_len spec.is_inside bytes.now }
{
    bytes
        .iter()
        .rev()
        .take_while(|byte| **byte != b'\n')
        .count()
}

/// What stands in front of the first line feed; all where there is none.
pub(crate) fn first_line(bytes: &[u8]) -> &[u8]
    ensures { result.now ≡ spec.first_line bytes.now }
{
    &bytes[..count_before_feed(bytes)]
}

/// What stands behind the last line feed; all where there is none.
pub(crate) fn last_line(bytes: &[u8]) -> &[u8]
    ensures { result.now ≡ spec.last_line bytes.now }
{
    let len = count_behind_feed(bytes);
    &bytes[bytes.len().saturating_sub(len)..]
}
