//! What programs on all nodes see of a store in every legal history: the plain graph. It has definitions and
//! laws alone.
#![tactic(auto)]

mod laws;

pub use laws::{
    copies_are_current, each_waits_for_its_want, every_history_is_a_graph_run,
    full_is_at_the_limit, laws_tell, nodes_have_the_graph, stuck_nodes_name_holders, targets_stand,
    wrong_rules_break,
};
