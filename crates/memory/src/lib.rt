// A card in 4,096 bytes: the fixed part, which installation writes; block H, which every change writes; block C, which administration
// writes; and a ring of log records. H and C have two copies each, and the root byte says which are live. A commit writes into what is not
// live and turns the root last, so that a torn commit reads as before.
#![tactic(auto)]

mod changing;
mod installing;
mod layout;
mod reading;
mod structs;

pub use changing::commit;
pub use installing::install;
pub use layout::MEMORY_SIZE;
pub use reading::{read, record_at};
