//! Why bytes are no image, as data.
ghost use Rattle.std.specs.Prelude.{◌≡◌, ◌≤◌, length};
ghost use Rattle.bmx_image.specs.Faults.{short, at as at_lem, told_of};

use bmx_types::NoMemory;
use std::alloc::{AllocError, AllocFailed};

/// Why an item of bytes doesn't fit.
#[derive(Clone, Copy, Debug, PartialEq, Eq)]
pub enum ImageCause {
    /// One of the first four bytes differs, or the version isn't 1.
    Magic,
    /// The bytes end in the item or before it.
    Short,
    /// The count is 0 or over 20,000, the anchor's size isn't 32, or a size is over 32.
    Size,
    /// The tag of a field is over 2.
    Tag,
    /// An index isn't below the count.
    Target,
    /// An object wasn't mentioned before, or a reference skips an object.
    Order,
    /// Bytes follow the last object.
    Trailing,
}

/// The first item of bytes that doesn't fit.
#[derive(Clone, Copy, Debug, PartialEq, Eq)]
pub struct BadImage {
    /// The place of its first byte, from 0; the number of bytes where they end too early.
    pub place: u64,
    pub cause: ImageCause,
}

/// Why bytes were read as no image.
#[derive(Clone, Copy, Debug, PartialEq, Eq)]
pub enum ImageError {
    NoMemory,
    Bad(BadImage),
}

/// An item that doesn't fit, as reading meets it.
#[derive(Clone, Copy, Debug, PartialEq, Eq)]
pub struct Fault {
    /// How many bytes are left from the item on, none where they end too early.
    pub left: usize,
    pub cause: ImageCause,
}

impl Fault {
    /// The bytes end too early.
    pub fn short() -> Fault
        ensures { result ≡ short }
    {
        Fault {
            left: 0,
            cause: ImageCause::Short,
        }
    }

    /// The item at the start of what is left is wrong.
    pub fn at(cause: ImageCause, bytes: &[u8]) -> Fault
        ensures { result ≡ at_lem cause bytes.now }
    {
        Fault {
            left: bytes.len(),
            cause,
        }
    }

    /// Its place in bytes.
    pub fn told(self, bytes: &[u8]) -> BadImage
        ensures { result ≡ told_of bytes.now self }
    {
        BadImage {
            place: bytes.len().saturating_sub(self.left) as u64,
            cause: self.cause,
        }
    }
}

/// Why reading stops.
#[derive(Clone, Copy, Debug, PartialEq, Eq)]
pub enum Stop {
    NoMemory,
    Fault(Fault),
}

impl From<NoMemory> for Stop {
    ghost use Rattle.std.specs.Prelude.{◌≡◌};
    ghost use Rattle.bmx_image.specs.declared.faults.Stop.TheVariants as stop;

    ghost from_gives = { λ _ e. e ≡ stop.NoMemory };

    fn from(_error: NoMemory) -> Stop {
        Stop::NoMemory
    }
}

impl From<Fault> for Stop {
    ghost use Rattle.std.specs.Prelude.{◌≡◌};
    ghost use Rattle.bmx_image.specs.declared.faults.Stop.TheVariants as stop;

    ghost from_gives = { λ f e. e ≡ stop.Fault f };

    fn from(fault: Fault) -> Stop {
        Stop::Fault(fault)
    }
}

impl From<AllocError> for Stop {
    ghost use Rattle.std.specs.Prelude.{◌≡◌};
    ghost use Rattle.bmx_image.specs.declared.faults.Stop.TheVariants as stop;

    ghost from_gives = { λ _ e. e ≡ stop.NoMemory };

    fn from(_error: AllocError) -> Stop {
        Stop::NoMemory
    }
}

impl<T: Drop> From<AllocFailed<T>> for Stop {
    ghost use Rattle.std.specs.Prelude.{◌≡◌};
    ghost use Rattle.bmx_image.specs.declared.faults.Stop.TheVariants as stop;

    ghost from_gives = { λ _ e. e ≡ stop.NoMemory };

    fn from(_error: AllocFailed<T>) -> Stop {
        Stop::NoMemory
    }
}
