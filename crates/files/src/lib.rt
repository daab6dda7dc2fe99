// A file: whole, or in parts as it arrives.
#![tactic(auto)]

mod incoming;
mod lines;
mod unfinished;
mod whole;

pub use incoming::{Finished, Incoming, Status, Taken};
pub use whole::{Outcome, check_file, end};
