// The twelve commands on a card in hand.
#![tactic(auto)]

pub mod outcome;
pub mod store;

pub use outcome::{Commits, Outcome};
