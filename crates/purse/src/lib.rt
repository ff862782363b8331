// The purse: installation, start-up and command on lent memory. Each call is one equation with its definition in `purse_spec`.
#![tactic(auto)]

pub mod calls;
mod commanding;
mod installation;
mod performing;
mod startup;

pub use calls::{Answer, Called};
pub use commanding::{LEAST_AREA, command};
pub use installation::install;
pub use startup::start_up;
