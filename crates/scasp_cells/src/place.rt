// Where the item at a place of the stack lies.
ghost use Rattle.std.specs.Prelude.{◌≡◌, ◌+◌, ◌^◌, ◌<◌, ◌≤◌};

#[derive(Clone, Copy)]
pub(crate) struct Place {
    pub(crate) segment: usize,
    pub(crate) offset: usize,
}

// The segments have room for 1, 2, 4, .. items, so segment k begins at place 2^k - 1: the highest
// bit of `at` + 1 is the segment, and the bits below it are the offset.
pub(crate) fn locate(at: u64) -> Place
    requires { at + 1 < 2 ^ 64 }
    ensures at { at + 1 ≡ 2 ^ result.segment + result.offset }
    ensures offset { result.offset < 2 ^ result.segment }
{
    let number = at + 1;
    let segment = number.ilog2() as usize;
    Place {
        segment,
        offset: (number - size(segment)) as usize,
    }
}

// For how many items there is room in the segment of this number.
pub(crate) fn size(segment: usize) -> u64
    requires { segment < 64 }
    ensures { result ≡ 2 ^ segment }
{
    1 << segment
}

// For how many items there is room in the first `count` segments.
pub(crate) fn room(count: usize) -> u64
    requires { count < 64 }
    ensures { result + 1 ≡ 2 ^ count }
{
    size(count) - 1
}
