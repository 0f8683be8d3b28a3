//! The laws of serial histories, each a public function with an empty body.
ghost use Rattle.bmx_turns.specs.Cases.{CrossedWritersAreStuck};
ghost use Rattle.bmx_turns.specs.Laws.{SerialFollowsItsScript, SerialEndsFirst, StuckRunsNot, StuckEndsTurns};

/// The law that each serial history follows its script: each command that is tried in it is the next of its node's
/// program in the phase that it stands in. It does nothing.
pub fn serial_follows_its_script()
    ensures { SerialFollowsItsScript }
{}

/// The law that a serial history is at its end as soon as it runs its script: no history that it goes on from runs
/// it. It does nothing.
pub fn serial_ends_first()
    ensures { SerialEndsFirst }
{}

/// The law that a stuck history doesn't run its script. It does nothing.
pub fn stuck_runs_not()
    ensures { StuckRunsNot }
{}

/// The law that a stuck history is at its end for every seed: no serial history goes on from it. It does nothing.
pub fn stuck_ends_turns()
    ensures { StuckEndsTurns }
{}

/// The law that a run can be stuck: one of two nodes that want to write one object, worked by hand, is. It does
/// nothing.
pub fn crossed_writers_are_stuck()
    ensures { CrossedWritersAreStuck }
{}
