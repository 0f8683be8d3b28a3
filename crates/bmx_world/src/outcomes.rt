//! What a program answers, as data.
use crate::runs::Run;
use crate::statuses::Status;

/// What a program answers: its status, and the run where one was made.
#[derive(Drop)]
pub struct Outcome {
    pub status: Status,
    pub run: Option<Run>,
}
