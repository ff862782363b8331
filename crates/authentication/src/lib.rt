// The commands that open the secure channel: INITIALIZE UPDATE and EXTERNAL AUTHENTICATE. Neither changes the card.
#![tactic(auto)]

pub mod external_authenticate;
pub mod initialize_update;
