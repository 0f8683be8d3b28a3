//! Reading bytes from what gives them. It touches the source alone.
ghost use Rattle.std.specs.Prelude.{◌≡◌, ℕ, ◌≤◌, ◌<◌, List, Option, Some, length, take, drop, IfOk, OnOk, OnErr, IsErrOf, IfSome, vec_len};
ghost use Rattle.std.specs.Io.KnownBytes.{Consumes, IsAtEnd};
ghost use Rattle.bmx_outside.specs.Faults.{Rose};
ghost use Rattle.bmx_outside.specs.Streams.{LosesAtMost};

use std::alloc::{AllocError, Global};

/// How many bytes `read_to_limit` asks for at once.
const PIECE: usize = 4096;

/// A source or a sink could not do what was asked.
#[derive(Clone, Copy, Debug, PartialEq, Eq, Hash)]
pub struct Failed;

/// What bytes are read from.
pub trait Source {
    // The bytes still to be read, where they are told.
    ghost left: { Self → Option (List ℕ) };

    // How many faults it had, which stands still at 2 ^ 64 - 1.
    ghost faults: { Self → ℕ };

    /// Reads some bytes to the start of the buffer and says how many. 0 is the end of the input.
    /// Behind them the buffer holds whatever was put there. A source that failed may be read again.
    fn read(&mut self, buf: &mut [u8]) -> Result<usize, Failed>
        requires { 0 < length buf.old }

        ensures count { IfOk result (λ k. k ≤ length buf.new) }
        ensures bytes { IfOk result (λ k. Consumes (left self.old) (left self.new) (take k buf.new)) }
        ensures end { IfOk result (λ k. k ≡ 0 → IsAtEnd (left self.old)) }
        ensures err { OnErr result (left self.new ≡ left self.old) }

        ensures failed { OnErr result (Rose (faults self.old) (faults self.new)) }
        ensures faults { faults self.old ≤ faults self.new };
}

/// Why an input could not be read.
#[derive(Clone, Copy, Debug, PartialEq, Eq, Hash)]
pub enum ReadError {
    NoMemory,
    Failed,
}

impl From<AllocError> for ReadError {
    ghost use Rattle.bmx_outside.specs.declared.sources.ReadError.TheVariants.{NoMemory};

    ghost from_gives = { λ _ e. e ≡ NoMemory };

    fn from(_error: AllocError) -> ReadError {
        ReadError::NoMemory
    }
}

impl From<Failed> for ReadError {
    ghost use Rattle.bmx_outside.specs.declared.sources.ReadError.TheVariants as errors;

    ghost from_gives = { λ _ e. e ≡ errors.Failed };

    fn from(_failed: Failed) -> ReadError {
        ReadError::Failed
    }
}

/// Reads to the end of the input, or the first `limit` bytes of a longer one, and asks for no more.
/// After an Err the bytes that were read until then are lost. Linear in the bytes read.
pub fn read_to_limit<S: Source>(
    alloc: Global,
    source: &mut S,
    limit: usize,
) -> Result<Vec<u8>, ReadError>
    ensures bytes { IfOk result (λ bytes. IfSome (S.left source.old) (λ all. bytes.items ≡ take limit all)) }
    ensures left { OnOk result (IfSome (S.left source.old) (λ all. S.left source.new ≡ Some (drop limit all))) }
    ensures len { IfOk result (λ bytes. vec_len bytes ≤ limit) }
    ensures lost { OnErr result (LosesAtMost (S.left source.old) (S.left source.new) limit) }

    ensures failed { IsErrOf result ReadError.Failed → Rose (S.faults source.old) (S.faults source.new) }
    ensures faults { S.faults source.old ≤ S.faults source.new }
{
    let mut bytes = Vec::new(alloc);
    let mut piece = [0u8; PIECE];
    while bytes.len() < limit {
        let room = PIECE.min(limit - bytes.len());
        let count = source.read(&mut piece[..room])?;
        if count == 0 {
            break;
        }
        bytes.extend_from_slice(&piece[..count])?;
    }
    Ok(bytes)
}
