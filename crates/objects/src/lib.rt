// Data objects, administrative and operational status, key sets, what a command is given and what it gives.
#![tactic(auto)]

pub mod context;
mod data;
mod key_sets;
mod outcomes;
mod status;
mod values;

pub use context::Context;
pub use data::{datum, datum_set};
pub use key_sets::{dek_of, key_set_of, with_keys};
pub use outcomes::{done, refused};
pub use status::{administrative, operational};
pub use values::value_ok;
