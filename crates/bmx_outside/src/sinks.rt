//! Writing bytes to what takes them. It touches the sink alone.
ghost use Rattle.std.specs.Prelude.{◌≡◌, ℕ, ◌≤◌, ◌<◌, List, Option, Ok, length, take, IfOk, OnOk, OnErr, IsErrOf, IsOk};
ghost use Rattle.std.specs.Io.KnownBytes.{Appends};
ghost use Rattle.bmx_outside.specs.Faults.{Rose};
ghost use Rattle.bmx_outside.specs.Streams.{AppendsPart};

use std::alloc::AllocError;

/// Why bytes could not be written.
#[derive(Clone, Copy, Debug, PartialEq, Eq, Hash)]
pub enum SinkError {
    NoMemory,
    Failed,
}

impl From<AllocError> for SinkError {
    ghost use Rattle.bmx_outside.specs.declared.sinks.SinkError.TheVariants.{NoMemory};

    ghost from_gives = { λ _ e. e ≡ NoMemory };

    fn from(_error: AllocError) -> SinkError {
        SinkError::NoMemory
    }
}

/// What bytes are written to.
pub trait Sink {
    // What was written so far, where it is told.
    ghost out: { Self → Option (List ℕ) };

    // How many faults it had, which stands still at 2 ^ 64 - 1.
    ghost faults: { Self → ℕ };

    /// Writes some of the first bytes of the piece and says how many. That it takes none counts as
    /// a fault. A sink that failed may be written to again.
    fn write(&mut self, piece: &[u8]) -> Result<usize, SinkError>
        requires { 0 < length piece.now }

        ensures count { IfOk result (λ k. k ≤ length piece.now) }
        ensures bytes { IfOk result (λ k. Appends (out self.old) (out self.new) (take k piece.now)) }
        ensures err { OnErr result (out self.new ≡ out self.old) }

        ensures failed { IsErrOf result SinkError.Failed → Rose (faults self.old) (faults self.new) }
        ensures took_none { result ≡ Ok 0 → Rose (faults self.old) (faults self.new) }
        ensures faults { faults self.old ≤ faults self.new };
}

/// Writes the whole text, each write offering what is left of it. A write that takes no byte is
/// answered as Failed. After an Err a part of the text is written, from its start, but not all.
pub fn write_all<K: Sink>(sink: &mut K, text: &[u8]) -> Result<(), SinkError>
    ensures ok { OnOk result (Appends (K.out sink.old) (K.out sink.new) text.now) }
    ensures err { OnErr result (AppendsPart (K.out sink.old) (K.out sink.new) text.now) }

    ensures failed { IsErrOf result SinkError.Failed → Rose (K.faults sink.old) (K.faults sink.new) }
    ensures faults { K.faults sink.old ≤ K.faults sink.new }
    ensures empty { length text.now ≡ 0 → (sink.new ≡ sink.old) × IsOk result }
{
    let mut at = 0;
    while at < text.len() {
        let count = sink.write(&text[at..])?;
        if count == 0 {
            return Err(SinkError::Failed);
        }
        at += count;
    }
    Ok(())
}
