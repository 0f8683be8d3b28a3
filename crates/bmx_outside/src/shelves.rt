//! What holds bytes under names, seen through one trait.
ghost use Rattle.std.specs.Prelude.{◌≡◌, ℕ, ◌≤◌, List, Option, IfOk, IfSome, OnOk, IsErrOf};
ghost use Rattle.bmx_outside.specs.Faults.{Rose};
ghost use Rattle.bmx_outside.specs.Shelves.{IfTold, KeepsOthers, Stores};

use bmx_types::{Bytes, NoMemory};
use std::alloc::{AllocError, AllocFailed, Global};

/// Why a shelf could not do what was asked.
#[derive(Clone, Copy, Debug, PartialEq, Eq, Hash)]
pub enum ShelfError {
    NoMemory,
    Failed,
}

impl From<NoMemory> for ShelfError {
    ghost use Rattle.std.specs.Prelude.{◌≡◌};
    ghost use Rattle.bmx_outside.specs.declared.shelves.ShelfError.TheVariants as error;

    ghost from_gives = { λ _ e. e ≡ error.NoMemory };

    fn from(_error: NoMemory) -> ShelfError {
        ShelfError::NoMemory
    }
}

impl From<AllocError> for ShelfError {
    ghost use Rattle.std.specs.Prelude.{◌≡◌};
    ghost use Rattle.bmx_outside.specs.declared.shelves.ShelfError.TheVariants as error;

    ghost from_gives = { λ _ e. e ≡ error.NoMemory };

    fn from(_error: AllocError) -> ShelfError {
        ShelfError::NoMemory
    }
}

impl<T: Drop> From<AllocFailed<T>> for ShelfError {
    ghost use Rattle.std.specs.Prelude.{◌≡◌};
    ghost use Rattle.bmx_outside.specs.declared.shelves.ShelfError.TheVariants as error;

    ghost from_gives = { λ _ e. e ≡ error.NoMemory };

    fn from(_error: AllocFailed<T>) -> ShelfError {
        ShelfError::NoMemory
    }
}

/// What holds bytes under names.
pub trait Shelf {
    // The bytes under each name, where they are told.
    ghost files: { Self → Option (List ℕ → Option (List ℕ)) };

    // How many faults it had, which stands still at 2 ^ 64 - 1.
    ghost faults: { Self → ℕ };

    /// The bytes under a name, None where there are none.
    fn load(&mut self, alloc: Global, name: &str) -> Result<Option<Bytes>, ShelfError>
        ensures found { IfOk result (λ found. IfSome (files self.old) (λ told. told name.now ≡ found)) }
        ensures files { files self.new ≡ files self.old }

        ensures failed { IsErrOf result ShelfError.Failed → Rose (faults self.old) (faults self.new) }
        ensures faults { faults self.old ≤ faults self.new };

    /// Puts bytes under a name, in place of what it had. After Failed nothing is known of that name.
    fn save(&mut self, name: &str, bytes: &[u8]) -> Result<(), ShelfError>
        ensures ok { OnOk result (IfTold (files self.old) (files self.new) (Stores name.now bytes.now)) }
        ensures others { IsErrOf result ShelfError.Failed → IfTold (files self.old) (files self.new) (KeepsOthers name.now) }
        ensures no_memory { IsErrOf result ShelfError.NoMemory → files self.new ≡ files self.old }

        ensures failed { IsErrOf result ShelfError.Failed → Rose (faults self.old) (faults self.new) }
        ensures faults { faults self.old ≤ faults self.new };
}
