//! What nodes do to one another, in plain data: the inputs of a node's step and its outcomes, the view of
//! a node, events and histories. Its definitions say what each step makes of a state, which histories
//! are legal, and what owner, current copy and rest are. It has no algorithm.
#![tactic(auto)]

mod events;
mod inputs;
mod laws;
mod views;

pub use bmx_owner::RecordList;
pub use events::{Event, History};
pub use inputs::{Done, Input, NodeAnswer, Sending, Sent};
pub use laws::{
    empty_is_legal, issued_is_counted, prefix_is_legal, refusal_keeps, replay_is_determined,
    served_are_listed, shown_steps_agree, stamp_is_within_place, state_has_one_view,
    step_is_determined, told_is_determined, wait_keeps, worked_runs_are_legal,
};
pub use views::{Entries, Entry, Numbers, View, ViewField, ViewFields};
