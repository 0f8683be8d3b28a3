//! What holds after every legal history with collectors, whatever tables are lost, late or taken again: the laws of stores
//! stand, no table ends what is needed, and none is stray; and, where no collector acts, the laws of places and of the
//! graph. It has definitions and laws alone.
#![tactic(auto)]

mod laws;

pub use laws::{
    full_is_at_the_limit, graph_stands_without_collector, laws_apply, laws_of_stores_stand,
    made_stay_current_without_collector, no_table_strays, places_stand_without_collector,
    ready_is_wanted, records_are_safe, tables_do_no_harm, targets_stand,
};
