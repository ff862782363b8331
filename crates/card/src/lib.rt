// The card by value: its head, its log's records, which cards there are, and a head with one part replaced. Where a card lies in
// memory is the crate `memory`.
#![tactic(auto)]

pub mod change;
mod fresh;
pub mod head;
pub mod keys;
pub mod log;
mod pin;
mod proper;
mod updates;

pub use change::Change;
pub use head::{Aid, Bank, Fixed, Head, KeySet, Keys, Parameters, Pin, Purse, Shared, State};
pub use keys::take_keys;
pub use log::Record;
pub use pin::well_formed;
