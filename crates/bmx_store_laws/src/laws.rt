//! The laws of each object's token in a store, each a public function with an empty body.
ghost use Rattle.bmx_store_laws.specs.Laws.{OneOwner, OneSeat, ReadersAreListed, WriteExcludes, WantsStandOnce, ParentsAnswer, ParentsLead, NamesAreCounted, LawsApply};

/// The law that in every legal history each name that stands somewhere has one owner, a node of the store. It
/// does nothing.
pub fn one_owner()
    ensures { OneOwner }
{}

/// The law that in every legal history the ownership of each name that stands somewhere has one seat: one
/// node has the owner's role and no grant of ownership is in flight, or no node has and exactly one grant
/// is, from one node to another. It does nothing.
pub fn one_seat()
    ensures { OneSeat }
{}

/// The law that in every legal history, while a node holds an object for writing, no other node holds it.
/// It does nothing.
pub fn write_excludes()
    ensures { WriteExcludes }
{}

/// The law that in every legal history an object's owner lists its readers: each node that has a copy beside
/// it, or to which a grant to read is in flight. It does nothing.
pub fn readers_are_listed()
    ensures { ReadersAreListed }
{}

/// The law that in every legal history each want that isn't ready stands at one spot alone: in a request in
/// flight, in a queue, or in a grant in flight to the node, of its mode; and nothing else is requested, queued
/// or granted. It does nothing.
pub fn wants_stand_once()
    ensures { WantsStandOnce }
{}

/// The law that in every legal history a node's parent knows the object, and has a record of the node or is
/// about to get ownership from it. It does nothing.
pub fn parents_answer()
    ensures { ParentsAnswer }
{}

/// The law that in every legal history the parents of a name lead from each node that knows it to its owner, or
/// to who gave ownership in a letter in flight, in fewer steps than there are nodes. It does nothing.
pub fn parents_lead()
    ensures { ParentsLead }
{}

/// The law that in every legal history a name that stands anywhere is among those that its maker, which is a
/// node, has counted. It does nothing.
pub fn names_are_counted()
    ensures { NamesAreCounted }
{}

/// The law that there is a store with two legal histories, worked by hand, to which the other laws apply. It
/// does nothing.
pub fn laws_apply()
    ensures { LawsApply }
{}
