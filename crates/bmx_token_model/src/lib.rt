//! One object's token over all nodes, as a model: what each node has of the object, the letters in
//! flight, and the steps that nodes take. Its laws hold whatever steps are taken: there is one owner, it
//! lists its readers, and a token for writing excludes; each want stands at one spot and each recall is
//! answered once; no letter is stray; parents lead to the owner; and what is forgotten or cleared, by late
//! tables too, nothing needs. It has definitions and laws alone.
#![tactic(auto)]

mod laws;

pub use laws::{
    cleared_is_unneeded, each_owes_one_answer, each_want_is_placed, gifts_are_recorded,
    idle_is_unneeded, no_letter_is_stray, nobody_asks_itself, ownership_is_one,
    parents_lead_to_the_owner, readers_are_listed, tables_keep_the_laws, tokens_exclude,
    who_is_asked_answers,
};
