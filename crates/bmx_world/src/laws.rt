//! Every law of histories that is proved so far, each a public function with an empty body.
ghost use Rattle.bmx_world.specs.Promises.{EveryHistoryKeepsOneStore};
ghost use Rattle.bmx_protocol.specs.Laws.{ToldIsDetermined, StepIsDetermined, RefusalKeeps, WaitKeeps, StateHasOneView, ShownStepsAgree, EmptyIsLegal, PrefixIsLegal, ReplayIsDetermined, StampIsWithinPlace, IssuedIsCounted, ServedAreListed, WorkedRunsAreLegal};
ghost use Rattle.bmx_store_laws.specs.Laws.{OneOwner, OneSeat, WriteExcludes, ReadersAreListed, WantsStandOnce, ParentsAnswer, ParentsLead, NamesAreCounted, LawsApply as TokenLawsApply};
ghost use Rattle.bmx_places.specs.Laws.{BlocksAreKept, OneShape, OnePlace, NoInfoClashes, NextIsTaken, NoLetterIsStray};
ghost use Rattle.bmx_places.specs.Cases.{LawsTell as PlaceLawsTell};
ghost use Rattle.bmx_coherence.specs.Laws.{EveryHistoryIsAGraphRun, FullIsAtTheLimit, NodesHaveTheGraph, CopiesAreCurrent, TargetsStand, EachWaitsForItsWant, StuckNodesNameHolders};
ghost use Rattle.bmx_coherence.specs.Telling.{LawsTell as GraphLawsTell, WrongRulesBreak};
ghost use Rattle.bmx_turns.specs.Laws.{SerialFollowsItsScript, SerialEndsFirst, StuckRunsNot, StuckEndsTurns};
ghost use Rattle.bmx_turns.specs.Cases.{CrossedWritersAreStuck};

/// The law that the nodes after every legal history of a store are one store of shared objects, whatever the
/// interleaving: commands are answered as by one graph, each object has its current copy at its one owner, and
/// nobody holds what another holds for writing. It does nothing.
pub fn every_history_keeps_one_store()
    ensures { EveryHistoryKeepsOneStore }
{}

// the rules of nodes

/// The law that what a step's rule is told beside the node's state is one. It does nothing.
pub fn told_is_determined()
    ensures { ToldIsDetermined }
{}

/// The law that a node, an input and a stamp make one outcome and one node. It does nothing.
pub fn step_is_determined()
    ensures { StepIsDetermined }
{}

/// The law that a refused step issues nothing and changes nothing but the count of steps. It does nothing.
pub fn refusal_keeps()
    ensures { RefusalKeeps }
{}

/// The law that a wait that issues nothing and changes no entry changes nothing but the count of steps. It
/// does nothing.
pub fn wait_keeps()
    ensures { WaitKeeps }
{}

/// The law that a node's state has at most one view that shows it. It does nothing.
pub fn state_has_one_view()
    ensures { StateHasOneView }
{}

/// The law that what a step shows depends only on what is shown. It does nothing.
pub fn shown_steps_agree()
    ensures { ShownStepsAgree }
{}

// histories

/// The law that the history of no event is legal. It does nothing.
pub fn empty_is_legal()
    ensures { EmptyIsLegal }
{}

/// The law that each prefix of a legal history is legal. It does nothing.
pub fn prefix_is_legal()
    ensures { PrefixIsLegal }
{}

/// The law that a history leads to one world of nodes. It does nothing.
pub fn replay_is_determined()
    ensures { ReplayIsDetermined }
{}

/// The law that no stamp of a legal history is larger than its event's place. It does nothing.
pub fn stamp_is_within_place()
    ensures { StampIsWithinPlace }
{}

/// The law that a node counts the letters that its history issued. It does nothing.
pub fn issued_is_counted()
    ensures { IssuedIsCounted }
{}

/// The law that the names that can be served at a node are finitely many, and can be listed by rising name.
/// It does nothing.
pub fn served_are_listed()
    ensures { ServedAreListed }
{}

/// The law that two runs worked by hand are legal. It does nothing.
pub fn worked_runs_are_legal()
    ensures { WorkedRunsAreLegal }
{}

// tokens and owners

/// The law that in every legal history each name that stands somewhere has one owner. It does nothing.
pub fn one_owner()
    ensures { OneOwner }
{}

/// The law that in every legal history ownership of a name is at one node or in one letter. It does nothing.
pub fn one_seat()
    ensures { OneSeat }
{}

/// The law that in every legal history nobody holds what another node holds for writing. It does nothing.
pub fn write_excludes()
    ensures { WriteExcludes }
{}

/// The law that in every legal history the owner lists each node that has a copy or is to get one. It does
/// nothing.
pub fn readers_are_listed()
    ensures { ReadersAreListed }
{}

/// The law that in every legal history each want is asked for, queued or granted once, and nothing else is.
/// It does nothing.
pub fn wants_stand_once()
    ensures { WantsStandOnce }
{}

/// The law that in every legal history a parent knows the object and has a record of who asks it. It does
/// nothing.
pub fn parents_answer()
    ensures { ParentsAnswer }
{}

/// The law that in every legal history parents lead to the owner in fewer steps than there are nodes. It does
/// nothing.
pub fn parents_lead()
    ensures { ParentsLead }
{}

/// The law that in every legal history a name that stands anywhere was counted by its maker. It does nothing.
pub fn names_are_counted()
    ensures { NamesAreCounted }
{}

/// The law that a store has legal histories to which the laws of tokens and owners apply. It does nothing.
pub fn token_laws_apply()
    ensures { TokenLawsApply }
{}

// places and letters

/// The law that in every legal history objects lie in blocks that share no word, and all that is told of them
/// is of these. It does nothing.
pub fn blocks_are_kept()
    ensures { BlocksAreKept }
{}

/// The law that in every legal history a name has one bunch and one size wherever it stands. It does nothing.
pub fn one_shape()
    ensures { OneShape }
{}

/// The law that in every legal history a name that has moved so often has one address, and its owner has
/// moved it most. It does nothing.
pub fn one_place()
    ensures { OnePlace }
{}

/// The law that in every legal history no letter in flight tells of a place that clashes with what its taker
/// knows. It does nothing.
pub fn no_info_clashes()
    ensures { NoInfoClashes }
{}

/// The law that after every legal history the next letter between two nodes can be taken. It does nothing.
pub fn next_is_taken()
    ensures { NextIsTaken }
{}

/// The law that no event of a legal history is answered that its letter doesn't fit. It does nothing.
pub fn no_letter_is_stray()
    ensures { NoLetterIsStray }
{}

/// The law that the laws of places apply to a worked history, and fail where an outcome is changed. It does
/// nothing.
pub fn place_laws_tell()
    ensures { PlaceLawsTell }
{}

// the graph

/// The law that the commands of every legal history with their answers are a run of the plain graph. It does
/// nothing.
pub fn every_history_is_a_graph_run()
    ensures { EveryHistoryIsAGraphRun }
{}

/// The law that a new object is refused as full exactly at the limit of segments. It does nothing.
pub fn full_is_at_the_limit()
    ensures { FullIsAtTheLimit }
{}

/// The law that in every legal history registers, tokens, copies and grants are the graph's. It does nothing.
pub fn nodes_have_the_graph()
    ensures { NodesHaveTheGraph }
{}

/// The law that in every legal history each name that was made or is reached has its current copy at its
/// owner. It does nothing.
pub fn copies_are_current()
    ensures { CopiesAreCurrent }
{}

/// The law that in every legal history what copies and letters refer to is known. It does nothing.
pub fn targets_stand()
    ensures { TargetsStand }
{}

/// The law that in every legal history a node wants the one name that it waits for. It does nothing.
pub fn each_waits_for_its_want()
    ensures { EachWaitsForItsWant }
{}

/// The law that where nothing can go on, each name that is waited for is held by another node. It does
/// nothing.
pub fn stuck_nodes_name_holders()
    ensures { StuckNodesNameHolders }
{}

/// The law that the laws of the graph apply to worked histories, and fail where an outcome is changed. It
/// does nothing.
pub fn graph_laws_tell()
    ensures { GraphLawsTell }
{}

/// The law that three wrong rules of nodes break the laws. It does nothing.
pub fn wrong_rules_break()
    ensures { WrongRulesBreak }
{}

// runs of programs

/// The law that each serial history follows its script. It does nothing.
pub fn serial_follows_its_script()
    ensures { SerialFollowsItsScript }
{}

/// The law that a serial history is at its end as soon as it runs its script. It does nothing.
pub fn serial_ends_first()
    ensures { SerialEndsFirst }
{}

/// The law that a stuck history doesn't run its script. It does nothing.
pub fn stuck_runs_not()
    ensures { StuckRunsNot }
{}

/// The law that no serial history goes on from a stuck one, whatever the seed. It does nothing.
pub fn stuck_ends_turns()
    ensures { StuckEndsTurns }
{}

/// The law that a run worked by hand is stuck. It does nothing.
pub fn crossed_writers_are_stuck()
    ensures { CrossedWritersAreStuck }
{}
