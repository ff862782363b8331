// A card without its log, by value. What is undefined is zero, so that equal cards are equal.
ghost use Rattle.std.specs.Prelude.{◌≡◌, ◌≤◌, length, take};

// An AID: `size` bytes and zeros after them. Size and bytes stay apart: the laws proper_ranges and ranges_proper (proofs/Spelled.antt)
// judge heads whose bytes past the size aren't zero.
#[derive(Clone, Copy, PartialEq, Eq, Debug)]
pub struct Aid {
    pub size: u8,
    pub bytes: [u8; 16],
}

impl Aid {
    // Its bytes, no more than it has room for.
    pub fn as_slice(&self) -> &[u8]
        ensures bytes { result.now ≡ take self.now.size self.now.bytes }
        ensures bound { length (take self.now.size self.now.bytes) ≤ 16 }
    {
        &self.bytes[..usize::from(self.size).min(16)]
    }
}

// What installation fixes for the whole card: how many records the log has, and how many tries a PIN has.
#[derive(Clone, Copy, PartialEq, Eq, Debug)]
pub struct Fixed {
    pub logsize: u8,
    pub maxtries: u8,
}

// Three keys: S-ENC, S-MAC and DEK.
#[derive(Clone, Copy, PartialEq, Eq, Debug)]
pub struct Keys {
    pub enc: [u8; 16],
    pub mac: [u8; 16],
    pub dek: [u8; 16],
}

// A key set that may be undefined. It stays a flag beside keys: the laws proper_ranges and ranges_proper (proofs/Spelled.antt) judge heads
// whose undefined set isn't zero.
#[derive(Clone, Copy, PartialEq, Eq, Debug)]
pub struct KeySet {
    pub defined: bool,
    pub keys: Keys,
}

// Tag 05 and key set 3, which is always defined.
#[derive(Clone, Copy, PartialEq, Eq, Debug)]
pub struct Shared {
    pub maxnumber: u16,
    pub admin: Keys,
}

// Tag 06. It stays a flag beside a value: the laws proper_ranges and ranges_proper (proofs/Spelled.antt) judge heads whose undefined value
// isn't zero.
#[derive(Clone, Copy, PartialEq, Eq, Debug)]
pub struct Bank {
    pub defined: bool,
    pub value: [u8; 16],
}

// Tags 01 to 04, 06 and 07; the agent's AID is undefined where its size is 0. They stay beside the flag: the laws proper_ranges and
// ranges_proper (proofs/Spelled.antt) judge heads that are not personalized and whose values aren't zero.
#[derive(Clone, Copy, PartialEq, Eq, Debug)]
pub struct Parameters {
    pub personalized: bool,
    pub identifier: [u8; 4],
    pub currency: u16,
    pub maxbalance: u16,
    pub maxdebit: u16,
    pub bank: Bank,
    pub agent: Aid,
}

// What belongs to one purse: its AID, its parameters, key set 1, key set 2 and tag 15.
#[derive(Clone, Copy, PartialEq, Eq, Debug)]
pub struct Purse {
    pub aid: Aid,
    pub parameters: Parameters,
    pub debit: KeySet,
    pub credit: KeySet,
    pub balance: u16,
}

// The PIN, as its block. It stays a flag beside a block: the laws proper_ranges and ranges_proper (proofs/Spelled.antt) judge heads whose
// undefined PIN isn't zero.
#[derive(Clone, Copy, PartialEq, Eq, Debug)]
pub struct Pin {
    pub defined: bool,
    pub block: [u8; 8],
}

// Tags 14 and 16.
#[derive(Clone, Copy, PartialEq, Eq, Debug)]
pub struct State {
    pub number: u16,
    pub tries: u8,
}

// The whole head.
#[derive(Clone, Copy, PartialEq, Eq, Debug)]
pub struct Head {
    pub fixed: Fixed,
    pub shared: Shared,
    pub purse: Purse,
    pub pin: Pin,
    pub state: State,
}
