//! The laws of what a store answers, each a public function with an empty body.
ghost use Rattle.bmx_coherence.specs.Laws.{EveryHistoryIsAGraphRun, FullIsAtTheLimit, NodesHaveTheGraph, CopiesAreCurrent, TargetsStand, EachWaitsForItsWant, StuckNodesNameHolders};
ghost use Rattle.bmx_coherence.specs.Telling.{LawsTell, WrongRulesBreak};

/// The law that the commands of every legal history, with their answers, are a run of the plain graph from the
/// opening: a node waits only for a token that it might have got or that another node keeps from it, and answers
/// as the graph does, but for a new object that finds no segment. It does nothing.
pub fn every_history_is_a_graph_run()
    ensures { EveryHistoryIsAGraphRun }
{}

/// The law that a new object is refused as full exactly where its node has made all its segments and the open one
/// of the bunch lacks room. It does nothing.
pub fn full_is_at_the_limit()
    ensures { FullIsAtTheLimit }
{}

/// The law that in every legal history registers, held tokens and counts of names are the graph's after the same
/// commands, and so are the fields of each copy and of each grant in flight. It does nothing.
#[tactic(auto, using(crate::proofs::Stated::nodes_have_the_graph))]
pub fn nodes_have_the_graph()
    ensures { NodesHaveTheGraph }
{}

/// The law that in every legal history each name that a node has made, and each that is reached, has its current
/// copy at its owner, or in the grant of ownership in flight. It does nothing.
#[tactic(auto, using(crate::proofs::Stated::copies_are_current))]
pub fn copies_are_current()
    ensures { CopiesAreCurrent }
{}

/// The law that in every legal history what a copy refers to is known at its node, and what a letter in flight
/// gives is known and recorded at its sender. It does nothing.
#[tactic(auto, using(crate::proofs::Stated::targets_stand))]
pub fn targets_stand()
    ensures { TargetsStand }
{}

/// The law that in every legal history each want of a node is of the command that it waits with, so that it wants
/// one name at most. It does nothing.
#[tactic(auto, using(crate::proofs::Stated::each_waits_for_its_want))]
pub fn each_waits_for_its_want()
    ensures { EachWaitsForItsWant }
{}

/// The law that in every legal history, where no letter is in flight, nothing can be served and no token that is
/// waited for is ready, each name that is waited for is held by another node. It does nothing.
pub fn stuck_nodes_name_holders()
    ensures { StuckNodesNameHolders }
{}

/// The law that the laws say something: they apply to two runs worked by hand, and each fails where one outcome is
/// changed. It does nothing.
#[tactic(auto, using(crate::proofs::CaseFacts::laws_tell))]
pub fn laws_tell()
    ensures { LawsTell }
{}

/// The law that three wrong rules break the others: a write granted while a reader has its copy, a grant taken
/// without hearing of what its fields refer to, a recall that drops a held copy. It does nothing.
#[tactic(auto, using(crate::proofs::CaseFacts::wrong_rules_break))]
pub fn wrong_rules_break()
    ensures { WrongRulesBreak }
{}
