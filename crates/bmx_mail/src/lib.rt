//! A node's letters: the entering records of the names that it gave, how many letters were issued to each node
//! and taken from it, and the letters of a step as they are posted.
#![tactic(auto)]

mod mail;
mod opening;
mod outbox;

pub use mail::Mail;
pub use outbox::Outbox;

#[cfg(test)]
mod tests;
