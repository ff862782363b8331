// Frames: mark, kind, length and data, from a stream that is split anywhere. What all readers of such files share; each has its own kinds,
// its own step and its own loop.
#![tactic(auto)]

mod front;
mod next;
mod output;
mod rest;

pub use front::{Front, HEADER_SIZE, frame_size, leads};
pub use next::Next;
pub use output::Output;
pub use rest::keep;
