//! Entering records: which names this node has given to which other node, up to which letter, so that
//! the collector keeps what another node may still reach through this one.
#![tactic(auto)]

mod entering;
mod told;

pub use entering::{Record, RecordList, Records};
