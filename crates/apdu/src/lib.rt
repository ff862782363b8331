// The command: its header, its instruction, its parameters and its length. Document 01's steps 1 to 5.
#![tactic(auto)]

mod early;
mod instructions;
mod lengths;
mod parameters;
mod parsing;
mod refusals;

pub use early::{plain_status, signed_status};
pub use instructions::{Instruction, Plain, Signed, classify};
pub use lengths::MAC_SIZE;
pub use parsing::{Apdu, parse};
pub use refusals::{Refusal, ensure};
