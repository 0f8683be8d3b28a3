//! The lines of a script, as data.
use bmx_types::{BunchNo, Command, Items, NodeNo, Text};

/// How often a table is taken, and from which phase on.
#[derive(Clone, Copy, Debug, PartialEq, Eq)]
pub struct Fate {
    pub times: u8,
    pub phase: u32,
}

/// What a line of a script says.
#[derive(Debug, Drop)]
pub enum LineKind {
    /// `bmx 1`
    Version,
    /// `nodes N`
    Nodes {
        count: u8,
    },
    /// `bunch B` and `bunch B from F`
    Bunch {
        word: Text,
        file: Option<Text>,
    },
    /// `segments L`
    Segments {
        limit: u32,
    },
    /// `table M N K lose`, `twice`, `thrice` and `after P`
    Table {
        from: NodeNo,
        to: NodeNo,
        number: u64,
        fate: Fate,
    },
    /// `tables lose every K`
    TablesLose {
        every: u32,
    },
    /// `save B F`
    Save {
        bunch: BunchNo,
        file: Text,
    },
    /// `phase`
    Phase,
    /// `quiet`
    Quiet,
    /// A command of a node's program.
    Do {
        node: NodeNo,
        command: Command,
    },
    /// `n collect B`
    Collect {
        node: NodeNo,
        bunch: BunchNo,
    },
    /// `n sweep`
    Sweep {
        node: NodeNo,
    },
    /// `settle`
    Settle,
}

/// A line of a script that isn't skipped, with its number from 1.
#[derive(Debug, Drop)]
pub struct Line {
    pub number: u32,
    pub what: LineKind,
}

/// Lines in the order of their numbers.
pub type Lines = Items<Line>;

/// The words of bunches, by number.
pub type BunchWords = Items<Text>;

/// What is wrong with a line.
#[derive(Clone, Copy, Debug, PartialEq, Eq)]
pub enum BadCause {
    /// No line that may stand there is spelled so.
    Form,
    /// A number, a register, a node or a word in it is outside its range.
    Range,
    /// The script is too long.
    Long,
    /// The script ends too early.
    End,
}

/// The first bad line of a script, by its number from 1.
#[derive(Clone, Copy, Debug, PartialEq, Eq)]
pub struct Bad {
    pub line: u32,
    pub cause: BadCause,
}
