//! How a legal history of a store grows, event by event, for whoever runs one: the next event is a step of a node that
//! takes, if it takes a letter, the first in flight. It has definitions and laws alone.
#![tactic(auto)]

mod laws;

pub use laws::{each_may_follow, flight_grows, history_begins, history_grows, laws_tell};
