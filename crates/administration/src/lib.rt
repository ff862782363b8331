// The commands that administer a card, past step 6: keys, PIN and data objects.
#![tactic(auto)]

mod answer;
pub mod pin_change;
pub mod put_data;
pub mod put_key;
pub mod store_data;
