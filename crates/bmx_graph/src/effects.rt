//! What a command changes, as data.
use bmx_types::{BunchNo, Mode, Name, Val};

/// What a node's command does to the graph where it is done.
#[derive(Clone, Copy, Debug, PartialEq, Eq)]
pub enum Effect {
    Nothing,
    /// A new object of so many null fields is made, and the register refers to it.
    Makes {
        register: u8,
        bunch: BunchNo,
        size: u8,
    },
    /// The register becomes the value.
    Sets {
        register: u8,
        value: Val,
    },
    /// The field of the object becomes the value.
    Stores {
        name: Name,
        index: u8,
        value: Val,
    },
    /// The node holds the token so, or no longer.
    Holds {
        name: Name,
        hold: Option<Mode>,
    },
}
