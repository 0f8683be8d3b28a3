//! The laws of the rules of collection, each a public function with an empty body.
ghost use Rattle.bmx_collection.specs.Laws.{CollectorStepIsDetermined, CollectorRefusalKeeps, CollectorTouchesNoToken, ReachMayBeKept, ReachWithoutReferencesIsRoots, CollectionKeepsItsReach, SecondTakingRemovesNothing, FoundIsTold, PrefixIsLegalLinked, LinkedReplayIsDetermined, WithoutCollectorsAlike, StubsAreAnswered, ScionsAreSafe, PairsAlwaysStand, EachStepIsDetermined, EachRefusalKeeps, LinksHaveOneView, CollectorsCanStep, LawsOfHistoriesStand};
ghost use Rattle.bmx_collection.specs.Telling.{RunsTell, WorkedRunsAreLegalLinked};

/// The law that a collector's step makes one outcome and one node of a node, an input and a stamp. It does nothing.
pub fn collector_step_is_determined()
    ensures { CollectorStepIsDetermined }
{}

/// The law that a refused step of a collector makes no table and changes nothing but the count of steps. It does
/// nothing.
pub fn collector_refusal_keeps()
    ensures { CollectorRefusalKeeps }
{}

/// The law that a step of a node makes one outcome and one node of a node, an input and a stamp, whichever input it is: a
/// command, a serve, a letter, or one of its collector's. It does nothing.
pub fn each_step_is_determined()
    ensures { EachStepIsDetermined }
{}

/// The law that a refused step of a node, by whichever input, issues no letter, makes no table and changes nothing but
/// the count of steps. It does nothing.
pub fn each_refusal_keeps()
    ensures { EachRefusalKeeps }
{}

/// The law that a collector's step issues no letter and touches no token: an entry that stands is as it was, and one
/// that goes was idle and had no record. It does nothing.
pub fn collector_touches_no_token()
    ensures { CollectorTouchesNoToken }
{}

/// The law that the local reach has the roots and is closed. It does nothing.
pub fn reach_may_be_kept()
    ensures { ReachMayBeKept }
{}

/// The law that where no copy refers to anything only roots are reached. It does nothing.
pub fn reach_without_references_is_roots()
    ensures { ReachWithoutReferencesIsRoots }
{}

/// The law that a collection that isn't refused keeps all that is reached of its bunch, nothing of it that isn't reached
/// in its window, and all of others; and that the window of a collection in one event holds what is reached and nothing
/// else. It does nothing.
pub fn collection_keeps_its_reach()
    ensures { CollectionKeepsItsReach }
{}

/// The law that a table that is taken twice in a row removes nothing the second time. It does nothing.
pub fn second_taking_removes_nothing()
    ensures { SecondTakingRemovesNothing }
{}

/// The law that what is found by looking at all names and segments of a node is what a collector's step is to be told.
/// It does nothing.
pub fn found_is_told()
    ensures { FoundIsTold }
{}

/// The law that after each legal history each node has finitely many names, homes of mapped segments and bunches with an
/// open one, so that its collector has a step by each of its inputs. It does nothing.
pub fn collectors_can_step()
    ensures { CollectorsCanStep }
{}

/// The law that the definitions say something: the first collection of a fresh store is a step, and three worked runs
/// with one answer changed are not legal. It does nothing.
pub fn runs_tell()
    ensures { RunsTell }
{}

/// The law that each prefix of a legal history with collectors is legal. It does nothing.
pub fn prefix_is_legal_linked()
    ensures { PrefixIsLegalLinked }
{}

/// The law that a history with collectors leads to one world of nodes. It does nothing.
pub fn linked_replay_is_determined()
    ensures { LinkedReplayIsDetermined }
{}

/// The law that the other laws of histories stand with collectors: that of no event is legal, no stamp is larger than its
/// event's place, a node counts the letters that it issued, and the names that can be served can be listed. It does
/// nothing.
pub fn laws_of_histories_stand()
    ensures { LawsOfHistoriesStand }
{}

/// The law that a history without collectors is legal exactly where it is legal by the rules without them, and leads
/// to the same states and places. It does nothing.
pub fn without_collectors_alike()
    ensures { WithoutCollectorsAlike }
{}

/// The law that the six worked runs with collectors are legal histories. It does nothing.
pub fn worked_runs_are_legal_linked()
    ensures { WorkedRunsAreLegalLinked }
{}

/// The law that after each legal history each stub has its scion. It does nothing.
pub fn stubs_are_answered()
    ensures { StubsAreAnswered }
{}

/// The law that after each legal history no table that was made, however late and often it comes, ends a scion whose
/// stub stands. It does nothing.
pub fn scions_are_safe()
    ensures { ScionsAreSafe }
{}

/// The law that after each legal history of a store what copies refer to is known at their nodes, and has its stub and
/// its scion there where it is of another bunch. It does nothing.
pub fn pairs_always_stand()
    ensures { PairsAlwaysStand }
{}

/// The law that a node's links have at most one view, that a view shows one value of links, and that after each legal
/// history the links of each node have one. It does nothing.
pub fn links_have_one_view()
    ensures { LinksHaveOneView }
{}
