//! What a collector does at a node, in plain definitions: what is kept and what is forgotten, where objects move,
//! stubs and scions, tables and what they end, and the step that they make together. It has definitions and laws
//! alone; no collector runs by them yet.
#![tactic(auto)]

mod laws;

pub use laws::{
    collection_keeps_its_reach, collector_refusal_keeps, collector_step_is_determined,
    collector_touches_no_token, collectors_can_step, each_refusal_keeps, each_step_is_determined,
    found_is_told, laws_of_histories_stand, linked_replay_is_determined, links_have_one_view,
    pairs_always_stand, prefix_is_legal_linked, reach_may_be_kept,
    reach_without_references_is_roots, runs_tell, scions_are_safe, second_taking_removes_nothing,
    stubs_are_answered, without_collectors_alike, worked_runs_are_legal_linked,
};
