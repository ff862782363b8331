// The session: a value that each call takes and hands back.
#![tactic(auto)]

mod access;
mod codes;
mod packing;
mod transitions;

pub use access::Access;

// Key sets 1, 2 and 3.
#[derive(Clone, Copy, Debug, PartialEq, Eq)]
pub enum Set {
    Debit = 1,
    Credit = 2,
    Admin = 3,
}

// The secure channel: none, or the key set that opened it, at security level 01 (C-MAC) or 11 (with R-MAC).
#[derive(Clone, Copy, Debug, PartialEq, Eq)]
pub enum Level {
    Closed,
    Mac(Set),
    Rmac(Set),
}

// The channel's session keys, its last accepted C-MAC and its last R-MAC; zeros where it is closed.
// The keys stay beside the level: C may hand in a closed channel whose keys aren't zero, and `unpack` takes it (`reads_back`).
#[derive(Clone, Copy)]
pub struct Channel {
    pub level: Level,
    pub enc: [u8; 16],
    pub mac: [u8; 16],
    pub cmac: [u8; 8],
    pub rmac: [u8; 8],
}

// What the last command left to be completed: INITIALIZE UPDATE under a key set, or INITIALIZE TRANSACTION of an amount.
// No `Option` of the others: every `match` on it would have two layers, where the definitions have one.
#[derive(Clone, Copy, Debug, PartialEq, Eq)]
pub enum Pending {
    Nothing,
    Update(Set),
    Debiting(u16),
    Crediting(u16),
}

// What INITIALIZE UPDATE prepared: session keys and the host cryptogram that is to come; zeros where none is pending.
// It stays beside `Pending::Update`: C may hand in an offer that isn't zero where none is pending, and `unpack` takes it (`reads_back`).
#[derive(Clone, Copy)]
pub struct Offer {
    pub enc: [u8; 16],
    pub mac: [u8; 16],
    pub expected: [u8; 8],
}

// `verified` is the PIN flag.
#[derive(Clone, Copy)]
pub struct Session {
    pub selected: bool,
    pub verified: bool,
    pub channel: Channel,
    pub pending: Pending,
    pub offer: Offer,
}
