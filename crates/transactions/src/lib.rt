// VERIFY PIN, INITIALIZE TRANSACTION and COMPLETE TRANSACTION on a card in hand, past the tests of the command's bytes and C-MAC.
#![tactic(auto)]

mod answer;
pub mod complete_transaction;
pub mod initialize_transaction;
mod sums;
pub mod verify_pin;
