// The bench file: frames in, lines out. The program lends memory, input and output; each function is one equation with its definition.
#![tactic(auto)]

mod frame;
mod front;
mod kind;
mod line;
mod turns;

pub use frame::Runner;
pub use line::LONGEST_LINE;
pub use turns::{Turned, last_line};
