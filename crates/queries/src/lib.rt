// The commands that read the card: SELECT, GET DATA and READ RECORD. None changes it.
#![tactic(auto)]

pub mod get_data;
pub mod read_record;
pub mod select;
