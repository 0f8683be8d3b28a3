//! Reading numbers from words.
ghost use Rattle.std.specs.Prelude.{◌≡◌, ℕ, ◌+◌, ◌*◌, ◌^◌, ◌<◌, true, length, slice_index_or, IsTrue, SomeIff};
ghost use Rattle.std.specs.Char.{digit_value};
ghost use Rattle.bmx_types.specs.Integers.{is_i64};
ghost use Rattle.bmx_numerals.specs.Numerals.{is_digit, is_numeral, negative_of};
ghost use Rattle.bmx_numerals.specs.Words.{tested, read_below, read_within, read_integer};

use crate::words::Misfit;

// Whether a word is a number's spelling.
#[inline]
fn spells_a_number(word: &[u8]) -> bool
    ensures { result ≡ is_numeral word.now }
{
    match word {
        [] => false,
        [only] => only.is_ascii_digit(),
        [first, ..] => *first != b'0' && word.iter().all(|byte| byte.is_ascii_digit()),
    }
}

// The number that has one more digit at its end.
#[inline(always)]
fn with_digit(number: u64, byte: u8) -> Option<u64>
    requires { IsTrue (is_digit byte) }
    ensures { SomeIff result (number * 10 + digit_value byte < 2 ^ 64) (number * 10 + digit_value byte) }
{
    number.checked_mul(10)?.checked_add(u64::from(byte - b'0'))
}

// The same of a number that has room.
#[inline(always)]
fn longer(number: u64, byte: u8) -> u64
    requires digit { IsTrue (is_digit byte) }
    requires room { number < 2 ^ 32 }
    ensures { result ≡ number * 10 + digit_value byte }
{
    number * 10 + u64::from(byte - b'0')
}

// The value of a word's first digit.
#[inline(always)]
fn first_digit(word: &[u8]) -> u64
    requires some { 0 < length word.now }
    requires digit { IsTrue (is_digit (slice_index_or word.now 0 0)) }
    ensures { result ≡ digit_value (slice_index_or word.now 0 0) }
{
    u64::from(word[0] - b'0')
}

/// What a word comes to as a number of 64 bits. Linear in the word's length.
#[inline(always)]
pub fn number(word: &[u8]) -> Result<u64, Misfit>
    ensures { result ≡ read_below (2 ^ 64) word.now }
{
    match word {
        [digit] if digit.is_ascii_digit() => Ok(u64::from(*digit - b'0')),
        _ => any_number(word),
    }
}

// The same, of a word that is seldom one digit.
#[inline(never)]
fn any_number(word: &[u8]) -> Result<u64, Misfit>
    ensures { result ≡ read_below (2 ^ 64) word.now }
{
    match word {
        [b'1'..=b'9', a] if a.is_ascii_digit() => Ok(longer(first_digit(word), *a)),
        [b'1'..=b'9', a, b] if a.is_ascii_digit() && b.is_ascii_digit() => {
            Ok(longer(longer(first_digit(word), *a), *b))
        }
        [b'1'..=b'9', a, b, c] if a.is_ascii_digit() && b.is_ascii_digit() && c.is_ascii_digit() =>
            { Ok(longer(longer(longer(first_digit(word), *a), *b), *c)) }
        _ if spells_a_number(word) => value_of(word),
        _ => Err(Misfit::Form),
    }
}

// The number that a numeral spells.
#[inline]
fn value_of(word: &[u8]) -> Result<u64, Misfit>
    requires { is_numeral word.now ≡ true }
    ensures { result ≡ read_below (2 ^ 64) word.now }
{
    let mut number = 0;
    for byte in word {
        let Some(longer) = with_digit(number, *byte) else {
            return Err(Misfit::Range);
        };
        number = longer;
    }
    Ok(number)
}

/// What a word comes to as a number below `limit`. Linear in the word's length.
#[inline(always)]
pub fn number_below(word: &[u8], limit: u64) -> Result<u64, Misfit>
    ensures { result ≡ read_below limit word.now }
{
    match number(word) {
        Ok(number) if number >= limit => Err(Misfit::Range),
        read => read,
    }
}

/// What a word comes to as a number from `low` to `high`, both of them included. Linear in the
/// word's length.
#[inline(always)]
pub fn number_within(word: &[u8], low: u64, high: u64) -> Result<u64, Misfit>
    ensures { result ≡ read_within low high word.now }
{
    match number(word) {
        Ok(number) if number < low || number > high => Err(Misfit::Range),
        read => read,
    }
}

// The negative of a number as an integer of 64 bits, which 0 does not have.
fn negated(number: u64) -> Result<i64, Misfit>
    ensures { result ≡ tested is_i64 (negative_of number) }
{
    if number == 0 {
        Err(Misfit::Form)
    } else if number > i64::MAX as u64 + 1 {
        Err(Misfit::Range)
    } else {
        Ok(-((number - 1) as i64) - 1)
    }
}

/// What a word comes to as an integer of 64 bits, with a sign: `-` for a negative one, and nothing
/// for another. Linear in the word's length.
#[inline(always)]
pub fn integer(word: &[u8]) -> Result<i64, Misfit>
    ensures { result ≡ read_integer word.now }
{
    match word {
        [b'-', digits @ ..] => negated(number(digits)?),
        _ => match number(word)? {
            number if number <= i64::MAX as u64 => Ok(number as i64),
            _ => Err(Misfit::Range),
        },
    }
}
