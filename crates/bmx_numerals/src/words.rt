//! What reading a word as a value comes to.
ghost use Rattle.std.specs.Prelude.{◌≡◌};
ghost use Rattle.bmx_numerals.specs.Words.{read_both};

/// Why a word isn't read as a value in the range that is wanted.
#[derive(Clone, Copy, Debug, PartialEq, Eq)]
pub enum Misfit {
    /// No value is spelled so.
    Form,
    /// A value is spelled so, outside the range.
    Range,
}

/// Two readings as one: both values, where both words have theirs. A wrong form is told before a
/// value outside its range, whichever word has it.
#[inline(always)]
pub fn both<T: Drop, U: Drop>(
    left: Result<T, Misfit>,
    right: Result<U, Misfit>,
) -> Result<(T, U), Misfit>
    ensures { result ≡ read_both left right }
{
    match (left, right) {
        (Ok(left), Ok(right)) => Ok((left, right)),
        (Err(Misfit::Form), _) | (_, Err(Misfit::Form)) => Err(Misfit::Form),
        (Err(Misfit::Range), _) | (_, Err(Misfit::Range)) => Err(Misfit::Range),
    }
}
