//! What a node is told, and what it answers, as data.
use bmx_msg::Letter;
use bmx_types::{Command, Items, Name, NodeNo, Refusal, Val};

/// What a node is to do in one step.
#[derive(Debug, Drop)]
pub enum Input {
    /// A command of its program.
    Do(Command),
    /// To serve the head of the queue of an object that it owns.
    Serve(Name),
    /// To take a letter in.
    Take { from: NodeNo, letter: Letter },
}

/// What a step answers.
#[derive(Clone, Copy, Debug, PartialEq, Eq)]
pub enum NodeAnswer {
    /// It is done.
    Nil,
    Value(Val),
    Yes,
    No,
    /// The command is to be given again once its token is ready.
    Wait,
    Refused(Refusal),
    /// Nothing can be served.
    Idle,
    /// The letter doesn't fit the node. It counts as not taken.
    Stray,
}

/// A letter, and the node that it goes to.
#[derive(Debug, Drop)]
pub struct Sending {
    pub to: NodeNo,
    pub letter: Letter,
}

/// Letters in the order in which they were issued.
pub type Sent = Items<Sending>;

/// The outcome of a step: its answer, and the letters that it issued.
#[derive(Debug, Drop)]
pub struct Done {
    pub answer: NodeAnswer,
    pub letters: Sent,
}
