//! The laws of a node's step and of legal histories, each a public function with an empty body.
ghost use Rattle.bmx_protocol.specs.Laws.{ToldIsDetermined, StepIsDetermined, RefusalKeeps, WaitKeeps, EmptyIsLegal, PrefixIsLegal, ReplayIsDetermined, StampIsWithinPlace, WorkedRunsAreLegal, IssuedIsCounted, StateHasOneView, ShownStepsAgree, ServedAreListed};

/// The law that for each node and input there is what its rule is told beside the state, and that it is
/// one. It does nothing.
pub fn told_is_determined()
    ensures { ToldIsDetermined }
{}

/// The law that a step makes one outcome and one node of a node, an input and a stamp. It does nothing.
pub fn step_is_determined()
    ensures { StepIsDetermined }
{}

/// The law that a refused step issues nothing and changes nothing but the count of steps. It does
/// nothing.
pub fn refusal_keeps()
    ensures { RefusalKeeps }
{}

/// The law that a step that answers Wait, issues no letter and changes no entry changes nothing but the
/// count of steps. It does nothing.
pub fn wait_keeps()
    ensures { WaitKeeps }
{}

/// The law that the history of no event is legal. It does nothing.
pub fn empty_is_legal()
    ensures { EmptyIsLegal }
{}

/// The law that each prefix of a legal history is legal. It does nothing.
pub fn prefix_is_legal()
    ensures { PrefixIsLegal }
{}

/// The law that a history leads to one world of nodes. It does nothing.
pub fn replay_is_determined()
    ensures { ReplayIsDetermined }
{}

/// The law that no stamp of a legal history is larger than its event's place. It does nothing.
pub fn stamp_is_within_place()
    ensures { StampIsWithinPlace }
{}

/// The law that two runs worked by hand are legal: one node makes and stores an object, and another is
/// granted what it is stored in; a node gets an object to write it, and another waits. It does nothing.
pub fn worked_runs_are_legal()
    ensures { WorkedRunsAreLegal }
{}

/// The law that a node counts the letters that its history issued. It does nothing.
pub fn issued_is_counted()
    ensures { IssuedIsCounted }
{}

/// The law that a node's state has at most one view that shows it. It does nothing.
pub fn state_has_one_view()
    ensures { StateHasOneView }
{}

/// The law that what a step shows depends only on what is shown: of nodes that one view shows, with the
/// same told by their places, steps by an input of the store whose letters go to its nodes have one
/// outcome, and one view shows what they lead to. It does nothing.
pub fn shown_steps_agree()
    ensures { ShownStepsAgree }
{}

/// The law that after events the names that can be served at a node are finitely many, and can be listed by
/// rising name. It does nothing.
pub fn served_are_listed()
    ensures { ServedAreListed }
{}
