//! The laws, as functions that do nothing and whose contracts state them.
ghost use Rattle.bmx_collection_laws.specs.Laws.{FullIsAtTheLimit, GraphStandsWithoutCollector, LawsApply, LawsOfStoresStand, MadeStayCurrentWithoutCollector, NoTableStrays, PlacesStandWithoutCollector, ReadyIsAlwaysWanted, RecordsAreSafe, TablesDoNoHarm, TargetsStand};

/// The law that after each legal history of a store a token that is ready is wanted. It does nothing.
pub fn ready_is_wanted()
    ensures { ReadyIsAlwaysWanted }
{}

/// The law that after each legal history of a store no table that was made, however late and often it comes, ends a
/// record that is needed. It does nothing.
pub fn records_are_safe()
    ensures { RecordsAreSafe }
{}

/// The law that after each legal history of a store no table that was made, however late and often it comes, ends a
/// record that is needed, or a scion whose stub stands. It does nothing.
pub fn tables_do_no_harm()
    ensures { TablesDoNoHarm }
{}

/// The law that after each legal history of a store the laws of stores hold, whatever was collected: one owner and one
/// seat of ownership, writes that exclude, readers listed, wants that stand once, parents that answer and lead to the
/// owner, and names that their makers counted. It does nothing.
pub fn laws_of_stores_stand()
    ensures { LawsOfStoresStand }
{}

/// The law that after each legal history of a store what copies and letters in flight refer to is known, at the node
/// that has the copy and at the letter's sender, which has a record of what the letter gives. It does nothing.
pub fn targets_stand()
    ensures { TargetsStand }
{}

/// The law that no event of a legal history of a store is answered that its table is stray. It does nothing.
pub fn no_table_strays()
    ensures { NoTableStrays }
{}

/// The law that a new object is refused as full exactly where its node has made all its segments and the open one of the
/// bunch lacks room, in each step, whatever was collected before. It does nothing.
pub fn full_is_at_the_limit()
    ensures { FullIsAtTheLimit }
{}

/// The law that after each legal history of a store in which no collector acts the laws of places stand: blocks of words
/// are kept, a name has one shape and with its number of moves one address, no Info clashes, the next letter of a pair is
/// taken, and none is stray. It does nothing.
pub fn places_stand_without_collector()
    ensures { PlacesStandWithoutCollector }
{}

/// The law that after each legal history of a store in which no collector acts the laws of the graph stand: the commands
/// of all nodes are a run of it, nodes have it, what is reached has its current copy at its owner, wants are waited for,
/// and stuck nodes name holders. It does nothing.
pub fn graph_stands_without_collector()
    ensures { GraphStandsWithoutCollector }
{}

/// The law that after each legal history of a store in which no collector acts each name that was made has its current
/// copy at its owner. It does nothing.
pub fn made_stay_current_without_collector()
    ensures { MadeStayCurrentWithoutCollector }
{}

/// The law that there is a store with a legal history with collectors, worked by hand, to which the other laws apply. It
/// does nothing.
pub fn laws_apply()
    ensures { LawsApply }
{}
