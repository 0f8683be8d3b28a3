//! What a store opens with, as data.
ghost use Rattle.bmx_types.specs.Openings.{IsOpening};

use crate::lists::Items;
use crate::names::Name;
use crate::numbers::BunchNo;
use crate::values::Vals;

/// An object that a store opens with.
#[derive(Debug, Drop)]
pub struct Birth {
    pub name: Name,
    pub bunch: BunchNo,
    pub fields: Vals,
}

/// Objects that a store opens with, in the order of their names.
pub type Births = Items<Birth>;

/// What a store opens with: 1 to 8 nodes, how many segments each may make, from 1 to 65,535, and the
/// objects of node 0, the anchors first.
#[derive(Debug, Drop)]
pub struct Opening {
    pub nodes: u8,
    pub limit: u32,
    pub births: Births,
    ghost opened: { IsOpening nodes limit births },
}
