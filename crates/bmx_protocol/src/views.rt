//! What a node shows of itself, as data.
use bmx_owner::RecordList;
use bmx_token::{Queue, Role};
use bmx_types::{BunchNo, Items, Mode, Name, NodeNo, NodeNos, Vals};

/// What a field of a copy holds, by names.
#[derive(Clone, Copy, Debug, PartialEq, Eq)]
pub enum ViewField {
    Null,
    Int(i64),
    Ref(Name),
}

/// The fields of a copy, in order.
pub type ViewFields = Items<ViewField>;

/// What a node knows of an object: which it is, its fields where the node has a copy, and the state of
/// its token there.
#[derive(Debug, Drop)]
pub struct Entry {
    pub name: Name,
    pub bunch: BunchNo,
    /// How many fields the object has.
    pub size: u8,
    pub role: Role,
    pub copy: Option<ViewFields>,
    pub held: Option<Mode>,
    pub want: Option<Mode>,
    pub ready: bool,
    pub due: Option<NodeNo>,
    pub readers: NodeNos,
    pub queue: Queue,
    pub waiting: NodeNos,
}

/// Entries by rising name.
pub type Entries = Items<Entry>;

/// One number for each node.
pub type Numbers = Items<u64>;

/// All that a node shows, by names: where objects lie is left out.
#[derive(Debug, Drop)]
pub struct View {
    pub entries: Entries,
    /// What the 16 registers hold.
    pub registers: Vals,
    /// By rising name, those of one name by rising node.
    pub records: RecordList,
    /// How many letters were issued to each node.
    pub issued: Numbers,
    /// How many letters were taken from each node.
    pub taken: Numbers,
    /// How many steps were made.
    pub clock: u64,
    /// How many names were made.
    pub made: u64,
}
