//! The greatest numbers of answer files.
ghost use Rattle.std.specs.Prelude.{◌≡◌};
ghost use Rattle.scasp_num.specs.Arithmetic.{signed};
ghost use Rattle.scasp_answers_terms.specs.Tokens.Bounds as spec;

/// Whether the number may be that of a line, a rule, a level or a variable.
pub fn is_place(number: u128) -> bool
    ensures { result ≡ spec.is_place number }
{
    number < 1 << 63
}

/// Whether the number may be any other that is no integer of arithmetic.
pub fn is_count(number: u128) -> bool
    ensures { result ≡ spec.is_count number }
{
    number < 1 << 64
}

/// The number of a line, a rule, a level or a variable; one that is too large as the largest `u64`.
pub fn bounded_place(number: u128) -> u64
    ensures { result ≡ spec.bounded_place number }
{
    if is_place(number) {
        number as u64
    } else {
        u64::MAX
    }
}

/// The integer of a sign and a size; one that is too large as the least `i128`.
pub fn bounded_integer(negative: bool, size: u128) -> i128
    ensures { result ≡ spec.bounded_integer (signed negative size) }
{
    if size >= 1 << 127 {
        return i128::MIN;
    }
    let value = size as i128;
    if negative { -value } else { value }
}
