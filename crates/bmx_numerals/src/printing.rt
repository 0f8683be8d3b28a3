//! Printing numbers.
ghost use Rattle.std.specs.Prelude.{◌≡◌, ◌+◌, ◌≤◌, ◌++◌, length, drop, is_ok, if◌then◌else◌, string_bytes};
ghost use Rattle.bmx_numerals.specs.Numerals.{numeral, signed_numeral};

use itoa::{Buffer, write_digits};
use std::alloc::AllocError;

/// Appends a number's spelling. After an error the text is as it was.
pub fn push_number(text: &mut String, number: u64) -> Result<(), AllocError>
    ensures { string_bytes text.new ≡ (if is_ok result then string_bytes text.old ++ numeral number else string_bytes text.old) }
{
    text.push_str(Buffer::new().format(number))
}

/// Appends an integer's spelling. After an error the text is as it was.
pub fn push_integer(text: &mut String, integer: i64) -> Result<(), AllocError>
    ensures { string_bytes text.new ≡ (if is_ok result then string_bytes text.old ++ signed_numeral integer else string_bytes text.old) }
{
    text.push_str(Buffer::new().format(integer))
}

/// Writes a number's spelling, of at most 20 bytes, so that it ends at `end`, and tells where it begins.
#[inline]
pub fn write_number(number: u64, bytes: &mut [u8], end: usize) -> usize
    requires { (20 ≤ end) × (end ≤ length bytes.old) }
    ensures written { drop result bytes.new ≡ numeral number ++ drop end bytes.old }
    ensures start { result + length (numeral number) ≡ end }
    ensures short { end ≤ result + 20 }
{
    write_digits(number, bytes, end)
}

/// The same of an integer, whose sign is one byte more.
#[inline]
pub fn write_integer(integer: i64, bytes: &mut [u8], end: usize) -> usize
    requires { (21 ≤ end) × (end ≤ length bytes.old) }
    ensures written { drop result bytes.new ≡ signed_numeral integer ++ drop end bytes.old }
    ensures start { result + length (signed_numeral integer) ≡ end }
    ensures short { end ≤ result + 21 }
{
    let start = write_number(integer.unsigned_abs(), bytes, end);
    if integer >= 0 {
        return start;
    }
    bytes[start - 1] = b'-';
    start - 1
}
