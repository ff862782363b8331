// The secure channel: session keys, cryptograms, signatures, and what travels enciphered.
#![tactic(auto)]

mod cryptograms;
mod keys;
mod macs;
mod transport;

pub use cryptograms::{card_cryptogram, host_cryptogram};
pub use keys::{derivation, session_key};
pub use macs::{cmac, rmac};
pub use transport::{bank_received, bank_sent, receive, received};
