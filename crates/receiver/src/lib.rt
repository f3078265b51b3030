// The receiver: values heard, lost ones among them, and the start at which a burst stands.
#![tactic(auto)]

mod calls;
mod history;
mod memory;

pub use history::{Accepted, Answer, Call, play};
pub use memory::{GREATEST_CAPACITY, Receiver};
