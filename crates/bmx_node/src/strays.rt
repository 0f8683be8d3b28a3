//! Which letters a node refuses to take. It changes nothing.
ghost use Rattle.std.specs.Prelude.{◌≡◌, ◌==◌, ℕ, ◌+◌, nat_lt};
ghost use Rattle.bmx_protocol.specs.Nodes.{Setting, NodeState};
ghost use Rattle.bmx_protocol.specs.Strays.{is_no_node, is_no_name, is_bad_info, is_bad_msg, is_bad_letter};
ghost use Rattle.bmx_node.specs.Inside.Screens.{Screens, has_bad_info, is_bad_grant};

use bmx_msg::{Field, Fields, Letter, Msg};
use bmx_types::{Info, Name, NodeNo};

/// The first stamp, and the first number of moves, that no letter may have.
pub(crate) const TOO_LARGE: u64 = 1 << 62;

/// The most fields of an object.
const FIELDS: u8 = 32;

/// How many nodes and bunches a store has.
#[derive(Clone, Copy)]
pub struct Dimensions {
    pub nodes: u8,
    pub bunches: u8,
}

/// What a node goes by when it looks at a letter by itself: the store, which node it is, and how many names
/// it has made.
#[derive(Clone, Copy)]
pub(crate) struct Screen {
    pub(crate) store: Dimensions,
    pub(crate) me: NodeNo,
    pub(crate) made: u64,
}

impl Screen {
    /// Whether a letter from a node, from which so many were taken, is stray whatever the node knows of
    /// objects: its sender is this node or none, its number isn't the next, its stamp is too large, or it
    /// names what can't be. Linear in its fields.
    pub(crate) fn is_bad_letter(&self, from: NodeNo, taken: u64, letter: &Letter) -> bool
        ensures { (st : Setting) (s : NodeState) → Screens self.now st s → s.taken from ≡ taken → result ≡ is_bad_letter st self.now.me s from letter.now }
    {
        from == self.me
            || !self.has(from)
            || !is_next(letter.seq, taken)
            || letter.stamp >= TOO_LARGE
            || self.is_bad_msg(&letter.msg)
    }

    /// Whether it is a node of the store.
    fn has(&self, node: NodeNo) -> bool
        ensures { result ≡ nat_lt node self.now.store.nodes }
    {
        node.get() < self.store.nodes
    }

    fn is_bad_msg(&self, msg: &Msg) -> bool
        ensures { (st : Setting) (s : NodeState) → Screens self.now st s → result ≡ is_bad_msg st self.now.me s msg.now }
    {
        match msg {
            Msg::ReadReq { name, asker } | Msg::WriteReq { name, asker } => {
                self.is_no_name(*name) || !self.has(*asker)
            }
            Msg::ReadGrant { info, fields } | Msg::WriteGrant { info, fields } => {
                self.is_bad_grant(info, fields)
            }
            Msg::Inval { name } | Msg::InvAck { name } => self.is_no_name(*name),
        }
    }

    fn is_bad_grant(&self, info: &Info, fields: &Fields) -> bool
        ensures { (st : Setting) (s : NodeState) → Screens self.now st s → result ≡ is_bad_grant st self.now.me s info.now fields.now }
    {
        fields.len() != info.size as usize
            || self.is_bad_info(info)
            || self.has_bad_info(fields.as_slice())
    }

    /// Whether an Info in fields can't be.
    fn has_bad_info(&self, fields: &[Field]) -> bool
        ensures { (st : Setting) (s : NodeState) → Screens self.now st s → result ≡ has_bad_info st self.now.me s fields.now }
    {
        for field in fields {
            if let Field::Ref(info) = field {
                if self.is_bad_info(info) {
                    return true;
                }
            }
        }
        false
    }

    fn is_bad_info(&self, info: &Info) -> bool
        ensures { (st : Setting) (s : NodeState) → Screens self.now st s → result ≡ is_bad_info st self.now.me s info.now }
    {
        self.is_no_name(info.name)
            || info.bunch.get() >= self.store.bunches
            || !self.has(info.place.address.home())
            || info.size > FIELDS
            || info.place.moves >= TOO_LARGE
    }

    /// Whether no node has made the name: its maker is none, or this node, which hasn't.
    fn is_no_name(&self, name: Name) -> bool
        ensures { (st : Setting) (s : NodeState) → Screens self.now st s → result ≡ is_no_name st self.now.me s name }
    {
        !self.has(name.node()) || name.node() == self.me && self.made < name.count()
    }
}

/// Whether a letter's number is the next after so many.
fn is_next(seq: u64, taken: u64) -> bool
    ensures { result ≡ (seq == taken + 1) }
{
    seq > taken && seq - taken == 1
}
