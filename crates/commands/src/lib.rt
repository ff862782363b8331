// The twelve commands on a card in hand, in document 01's order.
#![tactic(auto)]

mod dispatch;
mod plain;
mod request;
mod signed;

pub use dispatch::respond;
