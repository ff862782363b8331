// Byte strings, as the crates above use them: read, written, compared, and put together in a buffer of fixed size.
#![tactic(auto)]

pub mod buffer;
pub mod comparing;
pub mod reading;
pub mod writing;

pub use buffer::{Buffer, CAPACITY};
pub use comparing::all_zero;
pub use reading::{byte_at, byte_from, fill, part, word_at};
pub use writing::paste;
