//! Texts and numbers at the end of a list of bytes.
ghost use Rattle.std.specs.Prelude.{◌≡◌, ◌++◌, OnOk, decimal};
ghost use Rattle.std.specs.Fmt.{signed_decimal};
ghost use Rattle.scasp_cert.specs.Text.Separators.{separator_text};
ghost use Rattle.scasp_cert.specs.Text.Terms.{number_text};

use itoa::Buffer;
use scasp_name::Memory;
use scasp_num::Rat;

/// Puts the text at the end.
pub fn put(out: &mut Vec<u8>, text: &str) -> Result<(), Memory>
    ensures { OnOk result (out.new.items ≡ out.old.items ++ text.now) }
{
    out.extend_from_slice(text.as_bytes())?;
    Ok(())
}

/// Puts the separator at the end, unless what follows is the first item.
pub fn put_separator(out: &mut Vec<u8>, is_first: bool, separator: &str) -> Result<(), Memory>
    ensures { OnOk result (out.new.items ≡ out.old.items ++ separator_text is_first separator.now) }
{
    if is_first {
        Ok(())
    } else {
        put(out, separator)
    }
}

/// Puts the digits of a natural number at the end.
pub fn put_number(out: &mut Vec<u8>, number: u64) -> Result<(), Memory>
    ensures { OnOk result (out.new.items ≡ out.old.items ++ decimal number) }
{
    put(out, Buffer::new().format(number))
}

/// Puts the digits of an integer at the end, behind `-` where it is below 0.
pub fn put_integer(out: &mut Vec<u8>, integer: i128) -> Result<(), Memory>
    ensures { OnOk result (out.new.items ≡ out.old.items ++ signed_decimal integer) }
{
    put(out, Buffer::new().format(integer))
}

/// Puts a number at the end: its numerator, and behind `/` its denominator, where that is not 1.
pub fn put_rational(out: &mut Vec<u8>, number: Rat) -> Result<(), Memory>
    ensures { OnOk result (out.new.items ≡ out.old.items ++ number_text number) }
{
    put_integer(out, number.num())?;
    let den = number.den();
    if den == 1 {
        return Ok(());
    }
    put(out, "/")?;
    put_integer(out, den)
}
