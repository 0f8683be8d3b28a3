//! What holds of every name of a store in every legal history, whatever the interleaving: who owns an object
//! and who may read or write it, where wants stand, and where parents lead. It has definitions and laws alone.
#![tactic(auto)]

mod laws;

pub use laws::{
    laws_apply, names_are_counted, one_owner, one_seat, parents_answer, parents_lead,
    readers_are_listed, wants_stand_once, write_excludes,
};
